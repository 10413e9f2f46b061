//! What is wrong with the words after the program's name.

use programs::WordsFault;
use std::alloc::AllocError;

/// What is wrong with the words, and which of them is at fault.
#[derive(Debug, Drop)]
pub enum Complaint {
    /// They do not have the form of the command line, or ask for help or for the version.
    Words(WordsFault),
    /// DESIGN is missing.
    NoDesign,
    /// The value of `--horizon`, which is no number of its range.
    Horizon(String),
    /// The value of `--workers`, which is no number of its range.
    Workers(String),
    /// The value of `--delay`, which is no number of its range.
    Delay(String),
}

/// Why the program does not start.
#[derive(Debug, Drop)]
pub enum StartFault {
    /// The words are refused, or ask for help or for the version.
    Refused(Complaint),
    /// An allocation was refused.
    OutOfMemory,
}

impl From<AllocError> for StartFault {
    ghost use Rattle.std.specs.Prelude.{◌≡◌};
    ghost use Rattle.app.specs.declared.complaint.StartFault.TheVariants.{OutOfMemory};

    ghost from_gives = { λ _ fault. fault ≡ OutOfMemory };

    fn from(_error: AllocError) -> StartFault {
        StartFault::OutOfMemory
    }
}
