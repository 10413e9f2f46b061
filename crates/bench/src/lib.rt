//! Commits of edits to a design: each leaves a snapshot, the design with its run.
#![tactic(auto)]

mod bench;
mod cursor;
mod fault;
pub mod laws;
mod simulated;
mod since;
mod snapshot;

pub use bench::Bench;
pub use cursor::Cursor;
pub use fault::CommitFault;
pub use snapshot::Snapshot;
