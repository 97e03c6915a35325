// Lists of calls on a book. `replay` makes any list of them on a blank book, and gives the book and all answers: they
// are what the ledger gives for that list.
#![tactic(auto)]

mod asking;
mod call;
mod runs;
mod written;

pub use call::{Answer, Call, Written};
pub use runs::{apply, replay};
