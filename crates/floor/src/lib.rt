//! The tasks of a moment, dealt in pieces, and their answers put together in order.
#![tactic(auto)]

mod cut;
mod fault;
mod floor;
mod piece;
mod stage;

pub use cut::first_task;
pub use fault::FloorFault;
pub use floor::Floor;
pub use piece::Piece;
