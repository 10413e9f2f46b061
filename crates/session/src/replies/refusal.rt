//! Why a command was refused.

ghost use Rattle.std.specs.Prelude.{◌≡◌};
ghost use Rattle.session.specs.Replies.{refusal_code, refusal_name};

use edits::EditFault;

/// Why a command was refused, as a reply says it.
#[derive(Clone, Copy, Debug, PartialEq, Eq)]
pub enum Refusal {
    /// The edit's fault, 1 to 14 or 21.
    Edit(EditFault),
    /// A worker of the stepper ended before its answer came.
    WorkerLost,
    /// The line can't be read.
    BadCommand,
    /// The line is too long.
    LongLine,
    /// No snapshot is held under the name.
    UnknownHold,
    /// There is no batch to end.
    NoBatch,
    /// There is a batch already.
    InBatch,
}

impl Refusal {
    /// The refusal's number.
    pub fn code(self) -> u8
        ensures { result ≡ refusal_code self }
    {
        match self {
            Refusal::Edit(fault) => fault.code(),
            Refusal::WorkerLost => 15,
            Refusal::BadCommand => 16,
            Refusal::LongLine => 17,
            Refusal::UnknownHold => 18,
            Refusal::NoBatch => 19,
            Refusal::InBatch => 20,
        }
    }

    /// The refusal's name.
    pub fn name(self) -> &'static str
        ensures { result.now ≡ refusal_name self }
    {
        match self {
            Refusal::Edit(fault) => fault.name(),
            Refusal::WorkerLost => "WorkerLost",
            Refusal::BadCommand => "BadCommand",
            Refusal::LongLine => "LongLine",
            Refusal::UnknownHold => "UnknownHold",
            Refusal::NoBatch => "NoBatch",
            Refusal::InBatch => "InBatch",
        }
    }
}
