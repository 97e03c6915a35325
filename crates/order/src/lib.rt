// Orders, lists of at most 64 of them, the opening hour that a list leads to, and the key of an order.
#![tactic(auto)]

mod kind;
mod list;
mod order;

pub use kind::{Kind, Order, Orders};
