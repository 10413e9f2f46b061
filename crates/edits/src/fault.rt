//! Why an edit was refused.

ghost use Rattle.std.specs.Prelude.{◌≡◌};
ghost use Rattle.edits.specs.EditFaults.{fault_code, fault_name};

use thiserror::Error;

/// Why an edit was refused.
#[derive(Clone, Copy, Debug, PartialEq, Eq, Error)]
pub enum EditFault {
    /// No net has the name.
    #[error("unknown net")]
    UnknownNet = 1,
    /// No gate has the name.
    #[error("unknown gate")]
    UnknownGate = 2,
    /// Another net, or another gate, has the name.
    #[error("duplicate name")]
    DuplicateName = 3,
    /// The word may not be a name.
    #[error("bad name")]
    BadName = 4,
    /// A delay is 0.
    #[error("zero delay")]
    ZeroDelay = 5,
    /// A delay is over the limit.
    #[error("delay too large")]
    DelayTooLarge = 6,
    /// The number of inputs does not fit the kind of the gate.
    #[error("wrong number of inputs")]
    WrongArity = 7,
    /// A gate would drive an input of the design.
    #[error("driven input")]
    DrivenInput = 8,
    /// The net is no input of the design.
    #[error("not an input")]
    NotInput = 9,
    /// A gate reads or drives the net.
    #[error("net in use")]
    NetInUse = 10,
    /// A time is over the limit.
    #[error("time too large")]
    TimeTooLarge = 11,
    /// The net has no stimulus point at the time.
    #[error("no such point")]
    NoSuchPoint = 12,
    /// The design holds as many as it may.
    #[error("too many")]
    TooMany = 13,
    /// An allocation was refused.
    #[error("out of memory")]
    OutOfMemory = 14,
    /// A turn-off delay is given, or was given before, for a kind of gate that takes none.
    #[error("no turn-off delay")]
    NoTurnOff = 21,
}

impl EditFault {
    /// The fault's number.
    pub fn code(self) -> u8
        ensures { result ≡ fault_code self }
    {
        self as u8
    }

    /// The fault's name.
    pub fn name(self) -> &'static str
        ensures { result.now ≡ fault_name self }
    {
        match self {
            EditFault::UnknownNet => "UnknownNet",
            EditFault::UnknownGate => "UnknownGate",
            EditFault::DuplicateName => "DuplicateName",
            EditFault::BadName => "BadName",
            EditFault::ZeroDelay => "ZeroDelay",
            EditFault::DelayTooLarge => "DelayTooLarge",
            EditFault::WrongArity => "WrongArity",
            EditFault::DrivenInput => "DrivenInput",
            EditFault::NotInput => "NotInput",
            EditFault::NetInUse => "NetInUse",
            EditFault::TimeTooLarge => "TimeTooLarge",
            EditFault::NoSuchPoint => "NoSuchPoint",
            EditFault::TooMany => "TooMany",
            EditFault::OutOfMemory => "OutOfMemory",
            EditFault::NoTurnOff => "NoTurnOff",
        }
    }
}
