// Why a call is refused. Each layer has an enum of its own, whose cases are the grounds of that layer. One
// definition (specs/Refusals.antt) gives the number, the layer and the place of every case, and `Refusal::from` answers it.
#![tactic(auto)]

mod grounds;
mod layer;
mod wrapped;

pub use grounds::{
    BenchFault, BookFault, BufferFault, CipherFault, MessageFault, OrderFault, SheetFault,
    TimetableFault, TraceFault,
};
pub use layer::{Layer, Refusal};
