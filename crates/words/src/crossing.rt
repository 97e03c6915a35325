// Words from bytes and bytes from words.
ghost use Rattle.std.specs.Prelude.{◌≡◌, ◌*◌, length, if◌then◌else◌, nat_eq, Ok, Err};
ghost use Rattle.faults.specs.declared.grounds.CipherFault.TheVariants as CipherFault;
ghost use Rattle.words.specs.Words.{bytes as bytes_of, words as words_of};
ghost use Rattle.words.specs.Buffer.{Fills};

use faults::{BufferFault, CipherFault};

// Reads words out of exactly as many bytes. Words that are more or fewer are refused and stay as they were.
pub fn read_words(bytes: &[u8], out: &mut [u32]) -> Result<(), CipherFault>
    ensures answer { result ≡ (if nat_eq (length bytes.now) (4 * length out.old) then Ok tt else Err CipherFault.Block) }
    ensures out { out.new ≡ (if nat_eq (length bytes.now) (4 * length out.old) then words_of bytes.now else out.old) }
{
    if bytes.len() != 4 * out.len() {
        return Err(CipherFault::Block);
    }
    let (fours, _) = bytes.as_chunks::<4>();
    // by number, here and below: of what `zip` writes to a row lent as `&mut` the library tells nothing
    for (i, word) in out.iter_mut().enumerate() {
        *word = u32::from_be_bytes(fours[i]);
    }
    Ok(())
}

// Writes the words' bytes to the front of a buffer and answers how many they are.
pub fn put_words(words: &[u32], out: &mut [u8]) -> Result<usize, BufferFault>
    ensures { Fills (bytes_of words.now) out.old out.new result }
{
    let n = 4 * words.len();
    if out.len() < n {
        return Err(BufferFault::Short);
    }
    for (i, word) in words.iter().enumerate() {
        out[4 * i..4 * i + 4].copy_from_slice(&word.to_be_bytes());
    }
    Ok(n)
}
