//! Why a session did not open, or broke off.

ghost use Rattle.std.specs.Prelude.{◌≡◌};
ghost use Rattle.session.specs.kept.SessionFaults.{fault_number};

use edits::EditFault;
use thiserror::Error;
use vtext::ReadFault;

/// Why a session did not open, or broke off.
#[derive(Clone, Copy, Debug, PartialEq, Eq, Error)]
pub enum SessionFault {
    /// The design text is refused.
    #[error("{0}")]
    Design(ReadFault),
    /// The horizon is over the limit.
    #[error("{0}")]
    Edit(EditFault),
    /// An allocation was refused at the opening; nothing was read or written.
    #[error("out of memory")]
    OutOfMemory,
    /// A worker was lost at the opening; nothing was read or written.
    #[error("worker lost")]
    WorkerLost,
    /// The source failed. The replies to all whole lines that were read stand written.
    #[error("read failed")]
    Read,
    /// The sink failed. An exact beginning of the replies to the lines that were read stands written.
    #[error("write failed")]
    Write,
}

impl SessionFault {
    /// The fault's number.
    pub fn code(self) -> u8
        ensures { result ≡ fault_number self }
    {
        match self {
            SessionFault::Design(_) => 1,
            SessionFault::Edit(_) => 2,
            SessionFault::OutOfMemory => 3,
            SessionFault::WorkerLost => 4,
            SessionFault::Read => 5,
            SessionFault::Write => 6,
        }
    }
}
