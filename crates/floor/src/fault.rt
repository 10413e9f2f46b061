//! Why word of a piece is not taken.

use std::alloc::AllocError;
use thiserror::Error;

/// Why word of a piece is not taken, or why there is no floor.
#[derive(Clone, Copy, Debug, PartialEq, Eq, Error)]
pub enum FloorFault {
    /// No such piece was dealt.
    #[error("no such piece was dealt")]
    Stranger = 1,
    /// The piece was answered, or failed, before.
    #[error("word of the piece came before")]
    Double = 2,
    /// The piece has more or fewer tasks than there are answers.
    #[error("not as many answers as tasks")]
    WrongLength = 3,
    /// An allocation was refused.
    #[error("out of memory")]
    OutOfMemory = 4,
}

impl From<AllocError> for FloorFault {
    ghost use Rattle.std.specs.Prelude.{◌≡◌};
    ghost use Rattle.floor.specs.declared.fault.FloorFault.TheVariants.{OutOfMemory};

    ghost from_gives = { λ _ fault. fault ≡ OutOfMemory };

    fn from(_error: AllocError) -> FloorFault {
        FloorFault::OutOfMemory
    }
}
