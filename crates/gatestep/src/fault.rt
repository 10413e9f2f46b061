//! Why a step gave no answers.

use std::alloc::AllocError;
use thiserror::Error;

/// Why a step gave no answers.
#[derive(Clone, Copy, Debug, PartialEq, Eq, Error)]
pub enum StepFault {
    /// An allocation was refused.
    #[error("out of memory")]
    OutOfMemory = 1,
    /// A worker ended before its answer came.
    #[error("worker lost")]
    WorkerLost = 2,
}

impl From<AllocError> for StepFault {
    ghost use Rattle.std.specs.Prelude.{◌≡◌};
    ghost use Rattle.gatestep.specs.declared.fault.StepFault.TheVariants.{OutOfMemory};

    ghost from_gives = { λ _ fault. fault ≡ OutOfMemory };

    fn from(_error: AllocError) -> StepFault {
        StepFault::OutOfMemory
    }
}
