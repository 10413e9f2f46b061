//! White space: blanks, comments and attributes (IEEE 1364-2005, 3.2, 3.3, 3.8).

ghost use Rattle.std.specs.Prelude.{◌≡◌, ◌+◌, ◌≤◌, length};
ghost use Rattle.lexing.specs.Spaces.{white_space, opening_of, line_length, enclosed, behind_white};
ghost use Rattle.lexing.specs.kept.Spaces.{opening_length, white_length, IsSomeWhite};

use crate::classes::is_space;
use memchr::{memchr, memmem};

/// What the bytes in front begin with.
#[derive(Clone, Copy)]
pub enum Opening {
    /// No white space.
    Nothing,
    /// A single byte: a blank, a tab, a form feed or the end of a line.
    Space,
    /// `//`
    Line,
    /// `/*`
    Block,
    /// `(*`
    Attribute,
}

/// The piece of white space in front.
#[derive(Clone, Copy)]
pub enum White {
    /// None.
    Nothing,
    /// One of this many bytes.
    Takes(usize),
    /// A comment or an attribute that doesn't end.
    Unending,
}

/// What the bytes begin with, by the first two.
#[inline(always)]
#[tactic(auto, using(std::proofs::lemmas::Bool::Decides::nat_tests), unfolding(crate::specs::Spaces::opening_of))]
pub fn opening_of(bytes: &[u8]) -> Opening
    ensures value { result ≡ opening_of bytes.now }
    ensures within { opening_length result ≤ length bytes.now }
{
    if bytes.is_empty() {
        return Opening::Nothing;
    }
    let first = bytes[0];
    if is_space(first) {
        return Opening::Space;
    }
    if bytes.len() == 1 {
        return Opening::Nothing;
    }
    match (first, bytes[1]) {
        (b'/', b'/') => Opening::Line,
        (b'/', b'*') => Opening::Block,
        (b'(', b'*') => Opening::Attribute,
        _ => Opening::Nothing,
    }
}

/// How many bytes lie before the first line feed, or up to the end where there is none.
#[tactic(auto, using(crate::proofs::SpaceLemmas::first_line_feed))]
fn line_length(bytes: &[u8]) -> usize
    ensures value { result ≡ line_length bytes.now }
    ensures within { result ≤ length bytes.now }
{
    memchr(b'\n', bytes).unwrap_or(bytes.len())
}

/// The white space that two bytes open and that `closing` closes, `bytes` being what follows the two.
#[tactic(auto, using(crate::proofs::SpaceLemmas::closing_place))]
fn enclosed(bytes: &[u8], closing: &[u8; 2]) -> White
    ensures value { result ≡ enclosed bytes.now closing.now }
    ensures within { white_length result ≤ 2 + length bytes.now }
    ensures some { IsSomeWhite result }
{
    match memmem::find(bytes, closing) {
        None => White::Unending,
        Some(at) => White::Takes(at + 4),
    }
}

/// The piece of white space in front of the bytes.
#[inline(always)]
#[tactic(auto, using(std::proofs::lemmas::List::take_rest), unfolding(crate::specs::Spaces::white_space))]
pub fn white_space(bytes: &[u8]) -> White
    ensures value { result ≡ white_space bytes.now }
    ensures within { white_length result ≤ length bytes.now }
    ensures some { IsSomeWhite result }
{
    match opening_of(bytes) {
        Opening::Nothing => White::Nothing,
        Opening::Space => White::Takes(1),
        Opening::Line => White::Takes(2 + line_length(&bytes[2..])),
        Opening::Block => enclosed(&bytes[2..], b"*/"),
        Opening::Attribute => enclosed(&bytes[2..], b"*)"),
    }
}

/// What follows all white space in front of the bytes.
pub fn behind_white(bytes: &[u8]) -> &[u8]
    ensures value { result.now ≡ behind_white bytes.now }
    ensures within { length result.now ≤ length bytes.now }
{
    let mut rest = bytes;
    'pieces: loop {
        match white_space(rest) {
            White::Takes(n) => rest = &rest[n..],
            _ => return rest,
        }
    }
}
