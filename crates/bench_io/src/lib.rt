// What the two benches share: the mark in front of an input, and the lines that are printed.
#![tactic(auto)]

mod line;
mod mark;
mod printing;

pub use line::Line;
pub use mark::Mark;
pub use printing::print;
