// Where two messages with one digest come together. Walking back from both ends in step, the walk stops at the first
// place where the pair of chaining value and block differs: there the feed-forward step of the cipher collides. Each
// message is read once, from the front, and no list of chaining values is kept. For every cipher.
#![tactic(auto)]

ghost use Rattle.trace.specs.Walk.{Traces};

use crate::padding::Padded;
use crate::walk::walk;
use cipher::Cipher;
use faults::TraceFault;

mod padding;
mod walk;
mod walker;

// The blocks, counted from 0, of the two messages at which the step collides. Refused are a message over the limit,
// equal messages, and messages whose digests differ, looked at in this sequence.
pub fn trace<C: Cipher>(cipher: &C, x: &[u8], y: &[u8]) -> Result<(usize, usize), TraceFault>
    ensures { Traces (C.meaning cipher.now) x.now y.now result }
{
    let one = Padded::new(x)?;
    let other = Padded::new(y)?;
    if x == y {
        return Err(TraceFault::Equal);
    }
    walk(cipher, one, other)
}
