ghost use Rattle.std.specs.Prelude.{ℕ, ◌≤◌, List, Result, IfOk, length};
ghost use Rattle.std.specs.Fn.{FnOnceReturnsAtMut};
ghost use Rattle.faults.specs.declared.grounds.BufferFault.{BufferFault as Fault};
ghost use Rattle.calls.specs.Runs.{Wrote};

use crate::call::{Answer, Written};
use faults::{BookFault, BufferFault};

// What a question writes to a room of the length offered. No answer needs more than 357 bytes.
pub(crate) fn ask<F: FnOnce(&mut [u8]) -> Result<usize, BufferFault>>(
    question: F,
    room: usize,
) -> Result<Answer, BookFault>
    requires callable { F.IsAlwaysCallable question }
    requires within { (old new : List ℕ) (r : Result ℕ Fault) → FnOnceReturnsAtMut F.FnOnce question old r new → IfOk r (λ n. n ≤ length old) }
    ensures { Wrote (λ old r new. FnOnceReturnsAtMut F.FnOnce question old r new) room result }
{
    let mut bytes = Written::empty().bytes;
    let end = room.min(357);
    let count = question(&mut bytes[..end])?;
    Ok(Answer::Bytes(Written { bytes, count }))
}
