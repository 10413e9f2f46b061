//! One gate at one moment, and who evaluates it.
#![tactic(auto)]

mod driver;
mod fault;
mod job;
mod record;
mod serial;
mod stepper;
mod task;

pub use driver::Driver;
pub use fault::StepFault;
pub use job::{Job, Outcome};
pub use record::Record;
pub use serial::Serial;
pub use stepper::Stepper;
pub use task::{Task, next};
