//! Tokens as places in a text.

ghost use Rattle.std.specs.Prelude.{◌≡◌, ◌+◌, ◌<◌, ◌≤◌, length, slice_range};
ghost use Rattle.lexing.specs.Texts.{name_bytes};
ghost use Rattle.lexing.specs.kept.Texts.{IsInside, is_fault};

use std::mem::size_of;

const _: () = prove!(size_of::<Token>() == 12);

/// What a token is by its bytes alone (IEEE 1364-2005, 3).
#[derive(Clone, Copy, Debug, PartialEq, Eq)]
pub enum Shape {
    /// A letter or `_`, then letters, digits, `_` and `$`: a name or a word of the grammar.
    Name,
    /// `\` and one or more bytes 33 to 126: an escaped name.
    Escaped,
    /// A digit, then digits and `_`.
    Number,
    /// `1'b` or `1'B` and one of `0 1 x X z Z`.
    Constant,
    /// A whole directive `` `timescale ``, up to its second unit (IEEE 1364-2005, 19.8).
    Timescale,
    /// Any other byte 33 to 126, alone.
    Other,
    /// A comment or an attribute that doesn't end: from its beginning to the text's end, always the last token.
    Unending,
    /// A byte that is neither white space nor one of 33 to 126: always the last token.
    Stray,
}

/// A token: the bytes of the text from `start` up to `end`.
#[derive(Clone, Copy, Debug, PartialEq, Eq)]
pub struct Token {
    pub shape: Shape,
    /// The place of its first byte, from 0.
    pub start: u32,
    /// The place behind its last byte.
    pub end: u32,
}

impl Token {
    /// Whether the token is always the last one.
    #[inline(always)]
    pub fn is_last(self) -> bool
        ensures { result ≡ is_fault self.shape }
    {
        matches!(self.shape, Shape::Unending | Shape::Stray)
    }

    /// The token's bytes, where it stands in this text.
    pub fn bytes(self, text: &[u8]) -> &[u8]
        requires { IsInside (length text.now) self }
        ensures { result.now ≡ slice_range text.now self.start self.end }
    {
        &text[self.start as usize..self.end as usize]
    }

    /// The bytes of the name that the token spells: an escaped name's are those behind its `\`.
    pub fn name(self, text: &[u8]) -> &[u8]
        requires { IsInside (length text.now) self }
        ensures { result.now ≡ name_bytes text.now self }
    {
        match self.shape {
            Shape::Escaped => &text[self.start as usize + 1..self.end as usize],
            _ => self.bytes(text),
        }
    }
}
