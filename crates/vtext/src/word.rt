//! What a token says to the grammar.

use fourstate::{GateKind, NetKind, TimeUnit, Value};

/// The direction of a port (IEEE 1364-2005, 12.3.3). There is no `inout`.
#[derive(Clone, Copy, Debug, PartialEq, Eq)]
pub enum Direction {
    Input,
    Output,
}

/// What a token says to the grammar.
#[derive(Clone, Copy, Debug, PartialEq, Eq)]
pub enum Word {
    /// `module`.
    Module,
    /// `endmodule`.
    Endmodule,
    /// `input` or `output`.
    PortWord(Direction),
    /// The word of a net kind.
    NetWord(NetKind),
    /// The word of a gate kind.
    GateWord(GateKind),
    /// A good name, by its number in the table of names.
    Name(u32),
    /// A name that is too long, holds a dot or an apostrophe, or is `$end`.
    Misnamed,
    /// A number, at most 4,294,967,295.
    Number(u32),
    /// A constant of one bit.
    Literal(Value),
    /// `(`.
    Open,
    /// `)`.
    Close,
    /// `,`.
    Comma,
    /// `;`.
    Semicolon,
    /// `#`.
    Hash,
    /// `.`.
    Dot,
    /// `:`.
    Colon,
    /// `[`.
    OpenBracket,
    /// `]`.
    CloseBracket,
    /// A directive `` `timescale ``, whose unit is that of the text's first one.
    Timescale(TimeUnit),
    /// A word or a byte of Verilog that the grammar does without, or a directive whose unit differs from the first one's.
    Refused,
    /// A `\` that begins no name, or a comment or attribute that doesn't end.
    Broken,
    /// A byte that no text may hold.
    Stray,
}

/// A word, and where its token begins in the text, from 0.
#[derive(Clone, Copy, Debug, PartialEq, Eq)]
pub struct Placed {
    pub word: Word,
    pub start: u32,
}
