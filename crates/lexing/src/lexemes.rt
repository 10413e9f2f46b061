//! The longest token in front of the bytes.

ghost use Rattle.std.specs.Prelude.{◌≡◌, ◌<◌, ◌≤◌, true, length, slice_index};
ghost use Rattle.std.specs.List.{prefix_len};
ghost use Rattle.lexing.specs.Classes.{is_digit, is_letter, is_name_byte, is_number_byte, is_printed};
ghost use Rattle.lexing.specs.kept.Lexemes.{IsLexeme};

use crate::classes::{is_digit, is_letter, is_name_byte, is_number_byte, is_printed};
use crate::constants::begins_constant;
use crate::directives::directive;
use crate::token::Shape;

/// A token in front of the bytes.
#[derive(Clone, Copy)]
pub struct Lexeme {
    pub shape: Shape,
    pub length: usize,
}

/// How many bytes in front may stand in a name.
#[inline(always)]
fn name_run(bytes: &[u8]) -> usize
    ensures value { result ≡ prefix_len is_name_byte bytes.now }
    ensures within { result ≤ length bytes.now }
{
    bytes.iter().take_while(|byte| is_name_byte(**byte)).count()
}

/// How many bytes in front may stand in a number.
#[inline(always)]
fn number_run(bytes: &[u8]) -> usize
    ensures value { result ≡ prefix_len is_number_byte bytes.now }
    ensures within { result ≤ length bytes.now }
{
    bytes
        .iter()
        .take_while(|byte| is_number_byte(**byte))
        .count()
}

/// How many bytes in front are bytes 33 to 126.
fn printed_run(bytes: &[u8]) -> usize
    ensures value { result ≡ prefix_len is_printed bytes.now }
    ensures within { result ≤ length bytes.now }
{
    bytes.iter().take_while(|byte| is_printed(**byte)).count()
}

/// The length of the name in front of bytes that begin with a letter or `_`.
#[inline(always)]
pub fn name_length(bytes: &[u8]) -> usize
    requires some { 0 < length bytes.now }
    requires first { is_letter (slice_index bytes.now 0) ≡ true }
    ensures value { IsLexeme bytes.now Shape.Name result }
    ensures some { 0 < result }
    ensures within { result ≤ length bytes.now }
{
    1 + name_run(&bytes[1..])
}

/// The longest token in front of bytes that begin with a digit.
fn number_lexeme(bytes: &[u8]) -> Lexeme
    requires some { 0 < length bytes.now }
    requires first { is_digit (slice_index bytes.now 0) ≡ true }
    ensures value { IsLexeme bytes.now result.shape result.length }
    ensures some { 0 < result.length }
    ensures within { result.length ≤ length bytes.now }
{
    if begins_constant(bytes) {
        Lexeme {
            shape: Shape::Constant,
            length: 4,
        }
    } else {
        Lexeme {
            shape: Shape::Number,
            length: 1 + number_run(&bytes[1..]),
        }
    }
}

/// The longest token in front of bytes that begin with `\`.
fn escaped_lexeme(bytes: &[u8]) -> Lexeme
    requires some { 0 < length bytes.now }
    requires first { slice_index bytes.now 0 ≡ 92 }
    ensures value { IsLexeme bytes.now result.shape result.length }
    ensures some { 0 < result.length }
    ensures within { result.length ≤ length bytes.now }
{
    let run = printed_run(&bytes[1..]);
    if run == 0 {
        Lexeme {
            shape: Shape::Other,
            length: 1,
        }
    } else {
        Lexeme {
            shape: Shape::Escaped,
            length: 1 + run,
        }
    }
}

/// The longest token in front of bytes that begin with a grave accent.
fn directive_lexeme(bytes: &[u8]) -> Lexeme
    requires some { 0 < length bytes.now }
    requires first { slice_index bytes.now 0 ≡ 96 }
    ensures value { IsLexeme bytes.now result.shape result.length }
    ensures some { 0 < result.length }
    ensures within { result.length ≤ length bytes.now }
{
    match directive(bytes) {
        Some((_, rest)) => Lexeme {
            shape: Shape::Timescale,
            length: bytes.len() - rest.len(),
        },
        None => Lexeme {
            shape: Shape::Other,
            length: 1,
        },
    }
}

/// The longest token in front of the bytes, or the stray byte there.
pub fn first_lexeme(bytes: &[u8]) -> Lexeme
    requires { 0 < length bytes.now }
    ensures value { IsLexeme bytes.now result.shape result.length }
    ensures some { 0 < result.length }
    ensures within { result.length ≤ length bytes.now }
{
    let first = bytes[0];
    if is_letter(first) {
        Lexeme {
            shape: Shape::Name,
            length: name_length(bytes),
        }
    } else if is_digit(first) {
        number_lexeme(bytes)
    } else if first == b'\\' {
        escaped_lexeme(bytes)
    } else if first == b'`' {
        directive_lexeme(bytes)
    } else if is_printed(first) {
        Lexeme {
            shape: Shape::Other,
            length: 1,
        }
    } else {
        Lexeme {
            shape: Shape::Stray,
            length: 1,
        }
    }
}
