// The ledger of a book: what set-up put in and the numbered lines. It tells what a book shows and what every call
// answers, from the cipher's meaning and what the calls are handed, and from nothing else. This crate has no code: its
// definitions are what the contracts of the book cite, and its laws what their proofs use.
#![tactic(auto)]
