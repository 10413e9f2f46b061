//! The gates of a design one after another, each after all that drive what it reads.
#![tactic(auto)]

mod ahead;
mod beside;
mod checking;
mod earlier;
mod extending;
mod finding;
mod following;
mod helping;
mod in_order;
pub mod laws;
mod lines;
mod looking;
mod old_run;
mod progress;
mod run;

pub use beside::run_beside;
pub use checking::is_ordered;
pub use earlier::EarlierRun;
pub use extending::extend;
pub use finding::find_order;
pub use run::simulate;
