//! Runs from scratch and up to a later horizon.

mod counts;
pub mod extended;
mod keyed;
mod random;
