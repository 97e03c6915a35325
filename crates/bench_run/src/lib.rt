// The bench as one call: all the bytes that it prints, from the bytes that it reads.
#![tactic(auto)]

mod load;
mod run;

pub use run::bench;
