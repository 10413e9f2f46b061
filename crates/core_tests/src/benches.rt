//! Commits, snapshots and cursors, worked out by hand.

mod commits;
mod compared;
mod cursors;
mod held;
pub mod opened;
mod origins;
mod since;
mod stuck;
