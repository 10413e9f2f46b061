//! Why an event is refused.

use std::alloc::AllocError;
use thiserror::Error;

/// Why an event is refused, or why there are no viewers.
#[derive(Clone, Copy, Debug, PartialEq, Eq, Error)]
pub enum CoreFault {
    /// No viewer has the number.
    #[error("unknown viewer")]
    UnknownViewer = 1,
    /// The viewer holds no snapshot of the length.
    #[error("snapshot not held")]
    NotHeld = 2,
    /// The length is above what is shown.
    #[error("ahead of what is shown")]
    AheadOfLog = 3,
    /// An allocation was refused.
    #[error("out of memory")]
    OutOfMemory = 4,
}

impl From<AllocError> for CoreFault {
    ghost use Rattle.std.specs.Prelude.{◌≡◌};
    ghost use Rattle.hubcore.specs.declared.fault.CoreFault.TheVariants.{OutOfMemory};

    ghost from_gives = { λ _ fault. fault ≡ OutOfMemory };

    fn from(_error: AllocError) -> CoreFault {
        CoreFault::OutOfMemory
    }
}
