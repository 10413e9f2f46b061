//! The scopes of the design that the modules of a text make, or the text's fault (IEEE 1364-2005, 12.1 to 12.4).
#![tactic(auto)]

mod alone;
mod counts;
mod elaboration;
mod fault_places;
mod joints;
pub mod laws;
mod levels;
mod limits;
mod lines;
mod node;
mod ports;
mod ranks;
mod rings;
mod scope;
mod scopes;
mod slots;
mod start;
mod tops;
mod walk;
mod widths;

pub use alone::{inner_alone, top_alone};
pub use elaboration::{Elaboration, Top, design_within, find_top};
pub use fault_places::{FaultPlace, Party, fault_place};
pub use limits::MAX_DEPTH;
pub use lines::fault_at;
pub use node::{NetRun, NodeRef, Slot};
pub use scope::Scope;
