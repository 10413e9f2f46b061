//! Why a design text is refused.

ghost use Rattle.std.specs.Prelude.{◌≡◌, codes};
ghost use Rattle.vtext.specs.ReadFaults.{kind_code, kind_name, kind_of, out_of_memory, too_long};

use crate::cause::Cause;
use edits::EditFault;
use std::alloc::AllocError;
use thiserror::Error;

/// What is wrong with a design text.
#[derive(Clone, Copy, Debug, PartialEq, Eq, Error)]
pub enum ReadFaultKind {
    /// The text is too long, or has a byte that no text may hold.
    #[error("text")]
    Text,
    /// A token, or the text's end, can't continue the text.
    #[error("syntax")]
    Syntax,
    /// A form of Verilog that is left out.
    #[error("unsupported")]
    Unsupported,
    /// An instance of a module that isn't there.
    #[error("unknown module")]
    UnknownModule,
    /// A module that reaches itself by instances.
    #[error("recursive")]
    Recursive,
    /// There is no module.
    #[error("no top")]
    NoTop,
    /// Several modules have no instance.
    #[error("many tops")]
    ManyTops,
    /// Two widths that differ.
    #[error("width mismatch")]
    WidthMismatch,
    /// A constant where something is driven, or nets of different rules joined.
    #[error("port kind")]
    PortKind,
    /// Connections that don't fit the ports.
    #[error("port count")]
    PortCount,
    /// What is refused in an edit too, or an allocation that was refused.
    #[error("{0}")]
    Edit(EditFault),
}

impl ReadFaultKind {
    /// The fault's number.
    pub fn code(self) -> u8
        ensures { result ≡ kind_code self }
    {
        match self {
            ReadFaultKind::Text => 1,
            ReadFaultKind::Syntax => 2,
            ReadFaultKind::Unsupported => 3,
            ReadFaultKind::UnknownModule => 4,
            ReadFaultKind::Recursive => 5,
            ReadFaultKind::NoTop => 6,
            ReadFaultKind::ManyTops => 7,
            ReadFaultKind::WidthMismatch => 8,
            ReadFaultKind::PortKind => 9,
            ReadFaultKind::PortCount => 10,
            ReadFaultKind::Edit(_) => 11,
        }
    }

    /// The fault's name; that of an edit's fault is its own.
    pub fn name(self) -> &'static str
        ensures { result.now ≡ kind_name self }
    {
        match self {
            ReadFaultKind::Text => "Text",
            ReadFaultKind::Syntax => "Syntax",
            ReadFaultKind::Unsupported => "Unsupported",
            ReadFaultKind::UnknownModule => "UnknownModule",
            ReadFaultKind::Recursive => "Recursive",
            ReadFaultKind::NoTop => "NoTop",
            ReadFaultKind::ManyTops => "ManyTops",
            ReadFaultKind::WidthMismatch => "WidthMismatch",
            ReadFaultKind::PortKind => "PortKind",
            ReadFaultKind::PortCount => "PortCount",
            ReadFaultKind::Edit(fault) => fault.name(),
        }
    }
}

/// Where a design text is refused, and why.
#[derive(Clone, Copy, Debug, PartialEq, Eq, Error)]
#[error("line {line}: {kind}")]
pub struct ReadFault {
    /// The line of the token's first byte, from 1; 0 where an allocation was refused.
    pub line: u64,
    /// What is wrong there.
    pub kind: ReadFaultKind,
}

impl ReadFault {
    /// The text is over its limit.
    pub fn too_long() -> ReadFault
        ensures { result ≡ too_long }
    {
        ReadFault {
            line: 1,
            kind: ReadFaultKind::Text,
        }
    }

    /// An allocation was refused.
    pub fn out_of_memory() -> ReadFault
        ensures { result ≡ out_of_memory }
    {
        ReadFault {
            line: 0,
            kind: ReadFaultKind::Edit(EditFault::OutOfMemory),
        }
    }
}

impl From<AllocError> for ReadFault {
    ghost use Rattle.std.specs.Prelude.{◌≡◌};
    ghost use Rattle.vtext.specs.ReadFaults.{out_of_memory};

    ghost from_gives = { λ _ fault. fault ≡ out_of_memory };

    fn from(_error: AllocError) -> ReadFault {
        ReadFault::out_of_memory()
    }
}

/// The kind of fault that a cause gives.
pub fn kind_of(cause: Cause) -> ReadFaultKind
    ensures { result ≡ kind_of cause }
{
    match cause {
        Cause::Byte => ReadFaultKind::Text,
        Cause::Unsupported => ReadFaultKind::Unsupported,
        Cause::Syntax => ReadFaultKind::Syntax,
        Cause::BadName => ReadFaultKind::Edit(EditFault::BadName),
        Cause::ZeroDelay => ReadFaultKind::Edit(EditFault::ZeroDelay),
        Cause::DelayTooLarge => ReadFaultKind::Edit(EditFault::DelayTooLarge),
        Cause::TooMany => ReadFaultKind::Edit(EditFault::TooMany),
        Cause::DuplicateName => ReadFaultKind::Edit(EditFault::DuplicateName),
        Cause::WrongArity => ReadFaultKind::Edit(EditFault::WrongArity),
        Cause::WidthMismatch => ReadFaultKind::WidthMismatch,
        Cause::PortKind => ReadFaultKind::PortKind,
    }
}
