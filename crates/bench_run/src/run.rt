ghost use Rattle.std.specs.Prelude.{◌≡◌, ◌≤◌, length, Ok, Err};
ghost use Rattle.words.specs.Buffer.{Fills};
ghost use Rattle.bench_run.specs.Bench.{opens, fails, outcome, bench as printed_of};

use crate::load::opening;
use bench_io::{Line, Mark, print};
use faults::{BenchFault, BufferFault, CipherFault};

// The opening hour of an input, or its first fault.
fn answer(input: &[u8]) -> Result<u32, BenchFault>
    ensures { outcome input.now ≡ elim result [ Ok h ↦ opens h | Err f ↦ fails f ] }
{
    let [mark, rest @ ..] = input else {
        return Err(BenchFault::Mark);
    };
    let n = Mark::try_from(*mark)?.register_length();
    let (_register, sheet) = rest.split_at_checked(n).ok_or(CipherFault::Block)?;
    // `?` wraps the sheet's fault by `From`, the form asked for
    Ok(opening(sheet)?)
}

// Writes what the bench prints of an input to the front of a buffer, and answers its length.
pub fn bench(input: &[u8], out: &mut [u8]) -> Result<usize, BufferFault>
    ensures fills { Fills (printed_of input.now) out.old out.new result }
    ensures short { length (printed_of input.now) ≤ 128 }
{
    print(answer(input).map(Line::opening), out)
}
