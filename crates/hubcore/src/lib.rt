//! Editors and viewers of one design as one value: which commits were accepted, how many of them are shown, and what each viewer
//! saw and holds.
#![tactic(auto)]

mod event;
mod fault;
pub mod laws;
mod machine;
mod reply;
mod viewer;

pub use event::Event;
pub use fault::CoreFault;
pub use machine::Core;
pub use reply::Reply;
