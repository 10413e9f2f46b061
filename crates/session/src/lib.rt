//! A session: lines of commands in, replies out.
#![tactic(auto)]

mod asking;
mod at_fault;
mod batch;
mod commands;
mod fault;
mod held;
pub mod laws;
mod machine;
mod open;
mod reading;
mod replies;
mod said;
mod talk;
mod tool_asking;
mod words;

pub use fault::SessionFault;
pub use open::{Options, run};
pub use reading::line;
pub use said::{Line, LineFault};
