//! Which nets differ between two snapshots, as lines of text. No memory is taken when it is asked.
#![tactic(auto)]

mod apart;
mod finding;
mod lines;
mod room;

pub use lines::{differences, differences_since};
pub use room::Room;
