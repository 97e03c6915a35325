ghost use Rattle.std.specs.Prelude.{◌≡◌, ◌≤◌, length};
ghost use Rattle.words.specs.Buffer.{Fills};
ghost use Rattle.book.specs.Told.{told};
ghost use Rattle.bench_io.specs.Lines.{printed as printed_line};
ghost use Rattle.bench_full.specs.Bench.{Shows, over, found, outcome, bench as printed_of};

use crate::findings::Findings;
use arrayvec::ArrayVec;
use bench_io::{Line, Mark, print};
use book::Book;
use cipher::Cipher;
use faults::{BenchFault, BufferFault, CipherFault};
use loading::load;
use practice::Practice;
use shacal1::Shacal1;
use shacal2::Shacal2;

// What a book shows. No digest has more than eight words.
fn ask<C: Cipher>(book: &Book<C>) -> Findings
    ensures { Shows (C.meaning book.now.cipher) (told (C.meaning book.now.cipher) book.now) result }
{
    // fixed memory, of which the seal's bytes count
    let mut room = [0u8; 32];
    let count = book.seal(&mut room).unwrap();
    let mut seal = ArrayVec::new();
    seal.try_extend_from_slice(&room[..count]).unwrap();
    Findings {
        opening: book.opening(),
        code: book.code(),
        seal,
    }
}

// What stands behind a mark: a start register and a sheet.
fn answer_over<C: Cipher + Drop>(cipher: C, rest: &[u8]) -> Result<Findings, BenchFault>
    ensures { over (C.meaning cipher) rest.now ≡ found result }
{
    let n = 4 * cipher.width();
    let (register, sheet) = rest.split_at_checked(n).ok_or(CipherFault::Block)?;
    let book = load(cipher, register, sheet)?;
    Ok(ask(&book))
}

// What the bench finds in an input, or its first fault. The mark is told as in `bench_run`, in two lines: a call for both
// would hand out a mark and a rest, to be taken apart again.
fn answer(input: &[u8]) -> Result<Findings, BenchFault>
    ensures { outcome input.now ≡ found result }
{
    let [mark, rest @ ..] = input else {
        return Err(BenchFault::Mark);
    };
    match Mark::try_from(*mark)? {
        Mark::Shacal1 => answer_over(Shacal1, rest),
        Mark::Shacal2 => answer_over(Shacal2, rest),
        Mark::Practice => answer_over(Practice, rest),
    }
}

// The lines of what is found in an input, or its first fault: what is printed of either is the bench's.
#[tactic(auto, unfolding(crate::specs::Bench::bench))]
fn lines(input: &[u8]) -> Result<Line, BenchFault>
    ensures { printed_line result ≡ printed_of input.now }
{
    let found = answer(input)?;
    Ok(Line::from(found))
}

// Writes what the bench prints of an input to the front of a buffer, and answers its length. It stands beside that of
// `bench_run` until it takes the other's place.
pub fn bench(input: &[u8], out: &mut [u8]) -> Result<usize, BufferFault>
    ensures fills { Fills (printed_of input.now) out.old out.new result }
    ensures short { length (printed_of input.now) ≤ 128 }
{
    print(lines(input), out)
}
