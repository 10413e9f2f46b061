//! The run of a design from the run of a former one: only what differs is evaluated.
#![tactic(auto)]

mod changed;
mod cut;
mod incremental;
mod level;
mod other_horizon;
mod spending;
mod sweep;
mod through;
mod wide;
mod widening;

pub use changed::Changed;
pub use cut::shorten;
pub use incremental::{rerun, rerun_changed, rerun_touched};
pub use level::follow;
pub use spending::Limit;
