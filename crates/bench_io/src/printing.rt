ghost use Rattle.std.specs.Prelude.{◌≤◌, length};
ghost use Rattle.words.specs.Buffer.{Fills};
ghost use Rattle.bench_io.specs.Lines.{printed};

use crate::line::Line;
use faults::{BenchFault, BufferFault, Refusal};
use words::put;

// Writes what was found, or the line of the fault, to the front of a buffer, and answers its length.
pub fn print(found: Result<Line, BenchFault>, out: &mut [u8]) -> Result<usize, BufferFault>
    ensures fills { Fills (printed found) out.old out.new result }
    ensures short { length (printed found) ≤ 128 }
{
    let line = match found {
        Ok(line) => line,
        Err(fault) => Line::from(Refusal::from(fault)),
    };
    put(line.bytes(), out)
}
