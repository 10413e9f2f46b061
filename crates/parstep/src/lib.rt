//! Steppers that evaluate in several threads.
#![tactic(auto)]

mod bulk;
mod compare;
mod deal;
mod gather;
pub mod laws;
mod limits;
mod message;
mod parallel;
mod places;
mod pool;
mod seat;
mod shareable;
mod start;
mod worker;

pub use bulk::Bulk;
pub use limits::MAX_WORKERS;
pub use parallel::Parallel;
pub use pool::Pool;
pub use worker::{Probe, Quiet};
