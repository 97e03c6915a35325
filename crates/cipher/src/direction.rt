// Encryption and decryption as one, for code that does the same with either.
ghost use Rattle.std.specs.Prelude.{◌≡◌, ℕ, List};
ghost use Rattle.cipher.specs.Meaning.{Meaning};
ghost use Rattle.cipher.specs.Turned.{told, turned};

use crate::Cipher;
use faults::CipherFault;

// What is done to a block under a key: to encrypt it, or to decrypt it.
pub trait Direction {
    ghost way: { Meaning → List ℕ → List ℕ → List ℕ };

    // Does it to the block in place. One of another size is refused and stays as it was.
    fn turn<C: Cipher>(cipher: &C, key: &[u32; 16], block: &mut [u32]) -> Result<(), CipherFault>
        ensures answer { result ≡ told (C.meaning cipher.now).width block.old }
        ensures block { block.new ≡ turned (C.meaning cipher.now).width (way (C.meaning cipher.now) key.now) block.old };
}

#[derive(Clone, Copy, Debug)]
pub struct Encrypt;

#[derive(Clone, Copy, Debug)]
pub struct Decrypt;

impl Direction for Encrypt {
    ghost way = { λ m. m.enc };

    fn turn<C: Cipher>(cipher: &C, key: &[u32; 16], block: &mut [u32]) -> Result<(), CipherFault> {
        cipher.encrypt(key, block)
    }
}

impl Direction for Decrypt {
    ghost way = { λ m. m.dec };

    fn turn<C: Cipher>(cipher: &C, key: &[u32; 16], block: &mut [u32]) -> Result<(), CipherFault> {
        cipher.decrypt(key, block)
    }
}
