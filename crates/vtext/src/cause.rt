//! Why a token is refused.

/// Why the first pass refuses a token, of the causes that a token can have.
#[derive(Clone, Copy, Debug, PartialEq, Eq)]
pub enum Cause {
    /// A byte that no text may hold.
    Byte,
    /// A form of Verilog that is left out.
    Unsupported,
    /// The token can't continue the text.
    Syntax,
    /// A name that is too long, holds a dot or an apostrophe, or is `$end`.
    BadName,
    /// A delay of 0, or none at all.
    ZeroDelay,
    /// A delay over the limit.
    DelayTooLarge,
    /// A bound of a range, or an index, over the limit.
    TooMany,
    /// A name that is taken.
    DuplicateName,
    /// A vector where a scalar is wanted, another range than that of the declaration before, or an index that is none.
    WidthMismatch,
    /// The number of terminals doesn't fit the gate.
    WrongArity,
    /// A constant as an output.
    PortKind,
}
