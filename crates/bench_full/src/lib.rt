// The bench as one call: all the bytes that it prints, from the bytes that it reads. It sets up a book over the cipher
// that the input names, enters a sheet's orders, and prints the opening hour, the code and the seal.
#![tactic(auto)]

mod findings;
mod lines;
mod run;

pub use run::bench;
