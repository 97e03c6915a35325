// The order table of a book: up to 64 numbered lines, each an order with a mark that says whether it was undone. An
// undo marks one line and touches no other.
#![tactic(auto)]

mod finding;
mod line;
mod table;

pub use line::{Line, Table};
