//! What is wrong with the words after the program's name.

use programs::WordsFault;
use std::alloc::AllocError;

/// The words that the program is started with.
#[derive(Clone, Copy, Debug, PartialEq, Eq)]
pub enum Place {
    Design,
    Script,
    Viewers,
    Looks,
}

/// What is wrong with the words, and which of them is at fault.
#[derive(Debug, Drop)]
pub enum Complaint {
    /// They do not have the form of the command line, or ask for help or for the version.
    Words(WordsFault),
    /// This word is missing, and so are those behind it.
    Missing(Place),
    /// VIEWERS, which is no number of its range.
    Viewers(String),
    /// LOOKS, which is no number of its range.
    Looks(String),
}

/// Why the program does not start.
#[derive(Debug, Drop)]
pub enum StartFault {
    /// The words are refused, or ask for help or for the version.
    Refused(Complaint),
    /// An allocation was refused.
    OutOfMemory,
}

impl From<AllocError> for StartFault {
    ghost use Rattle.std.specs.Prelude.{◌≡◌};
    ghost use Rattle.racer.specs.declared.complaint.StartFault.TheVariants.{OutOfMemory};

    ghost from_gives = { λ _ fault. fault ≡ OutOfMemory };

    fn from(_error: AllocError) -> StartFault {
        StartFault::OutOfMemory
    }
}
