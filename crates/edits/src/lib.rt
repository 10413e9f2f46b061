//! Edits of a design by name, as values, with their checks.
#![tactic(auto)]

mod apply;
mod changes;
mod edit;
mod fault;
pub mod laws;
mod limits;
mod pin;
mod touched;
mod word;

pub use apply::{apply_all, apply_all_with_touched};
pub use edit::Edit;
pub use fault::EditFault;
pub use limits::MAX_EDITS;
pub use pin::{Pin, Pins};
pub use touched::Touched;
pub use word::Word;
