// The bench: reads a mark, a start register and a sheet from standard input, and prints what the lock shows, or the
// one line of a refusal. What it prints is the answer of `bench_run::bench`.
#![tactic(auto)]

ghost use Rattle.std.specs.Prelude.{◌≤◌, IfOk};

use bench_run::bench;
use std::io;
use std::io::{Read, Write};

// Reads until the input ends or the buffer is full, and answers how many bytes came. A short read is not the end.
// The count is kept by hand: `read_exact` refuses a short input, and `read_to_end` fills a `Vec` and promises no bound.
fn fill<R: Read>(from: &mut R, buffer: &mut [u8; 512]) -> io::Result<usize>
    ensures { IfOk result (λ n. n ≤ 512) }
{
    let mut count = 0usize;
    while count < 512 {
        let got = from.read(&mut buffer[count..512])?;
        if got == 0 {
            break;
        }
        count += got;
    }
    Ok(count)
}

fn main(rt: HostRuntime) -> io::Result<()> {
    let mut input = [0u8; 512];
    let count = fill(&mut rt.stdin(), &mut input)?;
    // no answer is longer than 128 bytes: room for it, of which the call tells how much it filled. A `Vec` is no plainer
    let mut answer = [0u8; 128];
    let n = bench(&input[0..count], &mut answer).unwrap();
    let mut out = rt.stdout();
    out.write_all(&answer[0..n])?;
    out.flush()
}
