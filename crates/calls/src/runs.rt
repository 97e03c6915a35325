ghost use Rattle.std.specs.Prelude.{IfOk};
ghost use Rattle.book.specs.Told.{Does};
ghost use Rattle.calls.specs.Runs.{asked, said, Ran};

use crate::asking::ask;
use crate::call::{Answer, Call};
use book::Book;
use cipher::Cipher;
use faults::BookFault;
use std::alloc::{AllocError, Global};

// Makes a call on a book. A `match` and no closures: a list of calls is data, which is kept, compared and printed.
pub fn apply<C: Cipher>(book: &mut Book<C>, call: Call<'_>) -> Result<Answer, BookFault>
    ensures { Does C.meaning (asked call.entry) book.old book.new (said result) }
{
    match call {
        Call::SetUp(name, base, timetable, start) => {
            book.set_up(name, base, timetable, start)?;
            Ok(Answer::Done)
        }
        Call::Enter(letter, amount) => {
            let (number, hour) = book.enter(letter, amount)?;
            Ok(Answer::Number(number, hour))
        }
        Call::Undo(number) => Ok(Answer::Hour(book.undo(number)?)),
        Call::Relieve => {
            let (number, hour) = book.relieve()?;
            Ok(Answer::Number(number, hour))
        }
        Call::Opening => Ok(Answer::Hour(book.opening())),
        Call::Register(room) => ask(|out| book.register(out), room),
        Call::Code => Ok(Answer::Code(book.code())),
        Call::Sheet(room) => ask(|out| book.sheet(out), room),
        Call::Seal(room) => ask(|out| book.seal(out), room),
    }
}

// Makes a list of calls on a book that nobody has set up, and gives the book and the answers in sequence. Want of
// memory for the answers is the one other outcome.
pub fn replay<C: Cipher + Drop>(
    cipher: C,
    heap: Global,
    calls: &[Call<'_>],
) -> Result<(Book<C>, Vec<Result<Answer, BookFault>>), AllocError>
    ensures { IfOk result (λ p. Ran C.meaning cipher calls.now p.0 p.1.items) }
{
    let mut book = Book::new(cipher);
    let mut out = Vec::new(heap);
    for c in calls {
        out.push(apply(&mut book, *c))?;
    }
    Ok((book, out))
}
