ghost use Rattle.std.specs.Prelude.{◌≡◌, ◌+◌, ◌*◌, ◌≤◌, ◌++◌, length};
ghost use Rattle.words.specs.Hex.{hex};
ghost use Rattle.bench_full.specs.Lines.{last_digits};
ghost use Rattle.bench_full.specs.Bench.{printed, finding};

use crate::findings::Findings;
use bench_io::Line;
use words::hex_digits;

// Puts a part that fits behind a line, which by itself refuses one that does not. `Line` has the same for its own use: a
// public call of it would have to require that the part fits.
fn put(line: &mut Line, part: &[u8])
    requires { length line.old + length part.now ≤ 128 }
    ensures { line.new ≡ line.old ++ part.now }
{
    line.push(part).unwrap();
}

// Puts the last `figures` decimal digits of a number behind a line, leading zeros kept. `{:06}` has the reason of `Line`
// against it: the contract of `write!` says nothing of an `Err`.
fn push_figures(line: &mut Line, figures: usize, n: u32)
    requires { length line.old + figures ≤ 128 }
    ensures after { line.new ≡ line.old ++ last_digits figures n }
    ensures long { length line.new ≡ length line.old + figures }
{
    if figures == 0 {
        return;
    }
    push_figures(line, figures - 1, n / 10);
    put(line, &[b'0' + (n % 10) as u8]);
}

// The same of bytes in hexadecimal digits, byte by byte: the kit's `hex` writes to a room, which a line does not show.
fn push_hex(line: &mut Line, bytes: &[u8])
    requires { length line.old + 2 * length bytes.now ≤ 128 }
    ensures after { line.new ≡ line.old ++ hex bytes.now }
    ensures long { length line.new ≡ length line.old + 2 * length bytes.now }
{
    for b in bytes {
        put(line, &hex_digits(*b));
    }
}

// The three lines of a book.
impl From<Findings> for Line {
    ghost from_gives = { λ found line. line ≡ printed (finding found) };

    fn from(found: Findings) -> Line {
        let mut line = Line::opening(found.opening);
        put(&mut line, b"code ");
        push_figures(&mut line, 6, found.code);
        put(&mut line, b"\nseal ");
        push_hex(&mut line, found.seal.as_slice());
        put(&mut line, b"\n");
        line
    }
}
