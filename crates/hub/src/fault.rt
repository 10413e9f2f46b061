//! Why a hub is not opened, and why a look gives nothing.

use thiserror::Error;

/// Why there is no hub.
#[derive(Clone, Copy, Debug, PartialEq, Eq, Error)]
pub enum HubFault {
    /// An allocation was refused.
    #[error("out of memory")]
    OutOfMemory = 1,
    /// There are 1 to 64 viewers.
    #[error("bad number of viewers")]
    BadCount = 2,
    /// A viewer got no place among the readers of what is published.
    #[error("no place for a viewer")]
    NoPlace = 3,
}

/// Why a look gives nothing.
#[derive(Clone, Copy, Debug, PartialEq, Eq, Error)]
pub enum LookFault {
    /// The snapshot has as many owners as can be counted.
    #[error("out of memory")]
    OutOfMemory = 1,
    /// The hub has ended.
    #[error("closed")]
    Closed = 2,
}
