// Encryption and decryption of bytes, for every cipher.
ghost use Rattle.std.specs.Prelude.{◌≡◌, if◌then◌else◌, Ok, Err};
ghost use Rattle.cipher.specs.Bytes.{key_fits, key_words, byte_told, byte_turned, opened as opened_of};

use crate::Cipher;
use crate::direction::{Decrypt, Direction, Encrypt};
use faults::CipherFault;
use words::{padded, put_words, read_words};

// The key's sixteen words, zero bytes behind it up to 64. A key under 16 or over 64 bytes is refused.
fn read_key(key: &[u8]) -> Result<[u32; 16], CipherFault>
    ensures { result ≡ (if key_fits key.now then Ok (key_words key.now) else Err CipherFault.Key) }
{
    if key.len() < 16 {
        return Err(CipherFault::Key);
    }
    let full: [u8; 64] = padded(key, 0).ok_or(CipherFault::Key)?;
    let mut words = [0; 16];
    read_words(&full, &mut words)?;
    Ok(words)
}

// The key's words and the block's, in eight places of which the last are zero. The key is looked at first.
fn open_bytes<C: Cipher>(
    cipher: &C,
    key: &[u8],
    block: &[u8],
) -> Result<([u32; 16], [u32; 8]), CipherFault>
    ensures { result ≡ opened_of (C.meaning cipher.now).width key.now block.now }
{
    let key_words = read_key(key)?;
    // there is no heap: room for the widest block, of which the cipher's words count
    let mut words = [0; 8];
    read_words(block, &mut words[..cipher.width()])?;
    Ok((key_words, words))
}

// Turns a block of four bytes a word in place, under a key of 16 to 64 bytes.
fn turn_bytes<D: Direction, C: Cipher>(
    cipher: &C,
    key: &[u8],
    block: &mut [u8],
) -> Result<(), CipherFault>
    ensures answer { result ≡ byte_told (C.meaning cipher.now).width key.now block.old }
    ensures block { block.new ≡ byte_turned (C.meaning cipher.now).width (D.way (C.meaning cipher.now)) key.now block.old }
{
    let (key_words, mut words) = open_bytes(cipher, key, block)?;
    let words = &mut words[..cipher.width()];
    let answer = D::turn(cipher, &key_words, words);
    let _ = put_words(words, block);
    answer
}

// Encrypts a block of four bytes a word in place, under a key of 16 to 64 bytes. A refused block stays as it was. This and
// the next are the names of `turn_bytes` for callers, who read them more easily than a type for the direction.
pub fn encrypt_bytes<C: Cipher>(cipher: &C, key: &[u8], block: &mut [u8]) -> Result<(), CipherFault>
    ensures answer { result ≡ byte_told (C.meaning cipher.now).width key.now block.old }
    ensures block { block.new ≡ byte_turned (C.meaning cipher.now).width (C.meaning cipher.now).enc key.now block.old }
{
    turn_bytes::<Encrypt, C>(cipher, key, block)
}

// Decrypts a block of four bytes a word in place, under a key of 16 to 64 bytes. A refused block stays as it was.
pub fn decrypt_bytes<C: Cipher>(cipher: &C, key: &[u8], block: &mut [u8]) -> Result<(), CipherFault>
    ensures answer { result ≡ byte_told (C.meaning cipher.now).width key.now block.old }
    ensures block { block.new ≡ byte_turned (C.meaning cipher.now).width (C.meaning cipher.now).dec key.now block.old }
{
    turn_bytes::<Decrypt, C>(cipher, key, block)
}
