// Two books side by side, as branch and owner compare them by their seals. Books over one cipher, set up alike, with the
// same orders in force in the same sequence show the same five; with unlike orders in force they share a seal only where
// the feed-forward step of the cipher collides, and the trace names where.
#![tactic(auto)]

mod judging;
mod verdict;

pub use judging::compare;
pub use verdict::Verdict;
