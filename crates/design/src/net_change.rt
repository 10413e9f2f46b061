//! Changes of a net.

use fourstate::{NetKind, Value};

/// What an edit changes of a net.
#[derive(Clone, Copy, Debug)]
pub(crate) enum NetChange {
    /// The kind.
    Kind(NetKind),
    /// A point of the stimulus: its moment, and the value from then on.
    Point(u64, Value),
    /// The point at this moment goes.
    NoPoint(u64),
}
