//! Numbers that are noted for moments to come.
#![tactic(auto)]

mod appending;
mod far;
mod near;
mod queue;
mod row;

pub use queue::EventQueue;
