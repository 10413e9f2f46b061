//! What differs between two runs, and when.
#![tactic(auto)]

mod blanks;
mod changed;
mod choosing;
mod finish;
mod finishing;
mod former;
mod front;
mod front_gates;
mod front_nets;
mod gate_notes;
mod gates;
mod holding;
pub mod laws;
mod leaping;
mod letting;
mod looking;
mod nets;
mod next;
mod noting;
mod old;
mod old_lines;
mod old_run;
mod opening;
mod patches;
mod place_map;
mod place_set;
mod places;
mod reading;
mod same;
mod spreading;

pub use blanks::Blanks;
pub use former::Former;
pub use front::Front;
pub use old_lines::OldLines;
pub use old_run::OldRun;
