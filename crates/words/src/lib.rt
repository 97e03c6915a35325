// Bytes and words, the most significant byte first, and answers written to the front of a caller's buffer.
#![tactic(auto)]

ghost use Rattle.words.specs.Buffer.{Fills};

use faults::BufferFault;

mod bits;
mod block;
mod crossing;
mod digits;
mod held;
mod padding;
mod sums;

pub use bits::{choose, majority};
pub use block::Block;
pub use crossing::{put_words, read_words};
pub use digits::hex_digits;
pub use padding::padded;
pub use sums::add_words;

// Writes bytes to the front of a buffer and answers how many they are.
pub fn put(bytes: &[u8], out: &mut [u8]) -> Result<usize, BufferFault>
    ensures { Fills bytes.now out.old out.new result }
{
    let n = bytes.len();
    if out.len() < n {
        return Err(BufferFault::Short);
    }
    out[0..n].copy_from_slice(bytes);
    Ok(n)
}
