//! Why a commit was refused.

use edits::EditFault;
use gatestep::StepFault;
use thiserror::Error;

/// Why a commit was refused.
#[derive(Clone, Copy, Debug, PartialEq, Eq, Error)]
pub enum CommitFault {
    /// The place, from 0, of the first edit that is refused, and why. It is never that memory ran out.
    #[error("edit {0}: {1}")]
    Edit(usize, EditFault),
    /// An allocation was refused.
    #[error("out of memory")]
    OutOfMemory,
    /// A worker of the stepper ended before its answer came.
    #[error("worker lost")]
    WorkerLost,
}

impl From<StepFault> for CommitFault {
    ghost use Rattle.std.specs.Prelude.{◌≡◌};
    ghost use Rattle.bench.specs.kept.Refusals.{refusal_of};

    ghost from_gives = { λ step fault. fault ≡ refusal_of step };

    fn from(fault: StepFault) -> CommitFault {
        match fault {
            StepFault::OutOfMemory => CommitFault::OutOfMemory,
            StepFault::WorkerLost => CommitFault::WorkerLost,
        }
    }
}
