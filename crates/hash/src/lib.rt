// The hash over any cipher, streaming: the feed-forward step, and blocks hashed one after the other.
#![tactic(auto)]

mod chaining;
mod close;
mod grow;
mod message;
mod parts;
mod step;

pub use chaining::Chain;
pub use message::{LIMIT, Message};
pub use parts::digest_of;
pub use step::forward;
