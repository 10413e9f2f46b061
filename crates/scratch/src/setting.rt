//! A moment of a run.

use crate::wiring::Wiring;
use design::Design;

/// A design with its connections, and a moment of its run.
#[derive(Clone, Copy)]
pub struct Setting<'a> {
    /// The design.
    pub design: &'a Design,
    /// Its connections.
    pub wiring: &'a Wiring,
    /// The moment, in time units.
    pub t: u64,
}
