//! What edits change. An edit is resolved to keys where the design accepts it, and then carried out: only that takes
//! memory, and where an allocation is refused the design is dropped.

mod carry_out;
mod change;
mod gates;
mod nets;
mod points;
mod resolve;
mod touch;
mod wiring;

pub(crate) use carry_out::carry_out;
pub(crate) use change::Change;
pub(crate) use resolve::resolve;
pub(crate) use touch::Touch;
