//! The present moment of a run.

use crate::wiring::Wiring;
use design::Design;
use fourstate::Value;

/// A moment of a run at which each net has its value.
#[derive(Clone, Copy)]
pub struct Present<'a> {
    /// The design.
    pub design: &'a Design,
    /// Its connections.
    pub wiring: &'a Wiring,
    /// The value of each net at the moment, in the order of the nets.
    pub values: &'a [Value],
    /// The moment, in time units.
    pub t: u64,
}
