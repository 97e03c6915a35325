// The order book of a lock, for every cipher. It keeps the present register and no copy of the start register; an undo
// turns the register back by decrypting. Every call does what the ledger says, and a refused call changes nothing.
#![tactic(auto)]

mod calls;
mod questions;
mod showing;
mod state;

pub use state::Book;
