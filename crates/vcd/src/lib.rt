//! Dumps of snapshots for viewers (IEEE 1364-2005, 18): the head, and the changes of all nets, moment by moment. Nothing here
//! takes memory.
#![tactic(auto)]

mod codes;
mod dump;
mod fault;
mod head;
pub mod laws;
mod lines;
mod moments;
mod scopes;
mod upcoming;
mod waves;

pub use codes::code;
pub use dump::{text, write};
pub use fault::VcdFault;
pub use scopes::change_scopes;
