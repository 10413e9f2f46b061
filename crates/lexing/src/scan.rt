//! The tokens of a text.

ghost use Rattle.std.specs.Prelude.{◌≡◌, ◌≤◌, [], length, IfSome, IsNone};
ghost use Rattle.lexing.specs.Texts.{Spells, token_at};
ghost use Rattle.lexing.specs.kept.Texts.{IsNext};
ghost use Rattle.lexing.specs.declared.limits.TheConstants.{MAX_TEXT};

use crate::classes::{is_letter, is_mark, is_space};
use crate::lexemes::{first_lexeme, name_length};
use crate::limits::MAX_TEXT;
use crate::spaces::{White, white_space};
use crate::token::{Shape, Token};

/// A token from these places of a text.
#[inline(always)]
fn token_at(shape: Shape, from: usize, to: usize) -> Token
    requires order { from ≤ to }
    requires within { to ≤ MAX_TEXT }
    ensures { result ≡ token_at shape from to }
{
    Token {
        shape,
        start: from as u32,
        end: to as u32,
    }
}

/// The first token at this place of a text or behind it: the longest one behind the white space there (IEEE 1364-2005, 3),
/// or a comment or an attribute that doesn't end, or a byte that begins no token.
#[inline(always)]
pub fn next_token(text: &[u8], from: usize) -> Option<Token>
    requires limit { length text.now ≤ MAX_TEXT }
    requires within { from ≤ length text.now }
    ensures none { IsNone result → Spells text.now from [] }
    ensures some { IfSome result (IsNext text.now from) }
{
    let mut position = from;
    while position < text.len() {
        let first = text[position];
        if is_space(first) {
            position += 1;
            continue;
        }
        if is_mark(first) {
            return Some(token_at(Shape::Other, position, position + 1));
        }
        if is_letter(first) {
            let end = position + name_length(&text[position..]);
            return Some(token_at(Shape::Name, position, end));
        }
        let rest = &text[position..];
        match white_space(rest) {
            White::Takes(length) => position += length,
            White::Unending => {
                return Some(token_at(Shape::Unending, position, text.len()));
            }
            White::Nothing => {
                let lexeme = first_lexeme(rest);
                let end = position + lexeme.length;
                return Some(token_at(lexeme.shape, position, end));
            }
        }
    }
    None
}
