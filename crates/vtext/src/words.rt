//! What the tokens of a text say to the grammar.

ghost use Rattle.std.specs.Prelude.{◌≡◌, ◌≤◌, IfOk, None, OnOk, Some, length, unwrap_or};
ghost use Rattle.lexing.specs.kept.Texts.{IsInside};
ghost use Rattle.lexing.specs.declared.limits.TheConstants.{MAX_TEXT};
ghost use Rattle.vtext.specs.kept.Keywords.{meanings_of};
ghost use Rattle.vtext.specs.Words.{directive_word, unit_at, with_token, word_of};
ghost use Rattle.vtext.specs.kept.Words.{AreSaid, AreWithin, with_directive};

use crate::keywords::mark;
use crate::names::Names;
use crate::table::Table;
use crate::units::{directive_word, unit_at};
use crate::word::{Placed, Word};
use design::NameHasher;
use lexing::{Shape, Token, constant_value, next_token, number_value};
use std::alloc::{AllocError, Global};

/// For how many bytes of a text there probably is a new name (own).
const BYTES_FOR_A_NAME: usize = 64;
/// How many bytes of a text one word takes in most texts, or more (own).
const BYTES_FOR_A_WORD: usize = 2;

impl<'a> Table<'a> {
    /// What a directive says.
    fn directive_word(&mut self, text: &[u8], token: Token) -> Word
        requires { IsInside (length text.now) token }
        ensures names { self.new.names ≡ self.old.names }
        ensures meanings { self.new.meanings.items ≡ self.old.meanings.items }
        ensures directive { self.new.directive ≡ Some (unwrap_or self.old.directive (unit_at text.now token)) }
        ensures word { result ≡ directive_word (unwrap_or self.new.directive None) (unit_at text.now token) }
    {
        let unit = unit_at(text, token);
        let first = self.directive.unwrap_or(unit);
        self.directive = Some(first);
        directive_word(first, unit)
    }

    /// What a token says; its name is then in the table, if it has one.
    fn word(&mut self, text: &'a [u8], token: Token) -> Result<Placed, AllocError>
        requires inside { IsInside (length text.now) token }
        requires meanings { self.old.meanings.items ≡ meanings_of self.old.names }
        ensures names { OnOk result (self.new.names ≡ with_token text.now self.old.names token) }
        ensures meanings { OnOk result (self.new.meanings.items ≡ meanings_of self.new.names) }
        ensures directive { OnOk result (self.new.directive ≡ with_directive text.now self.old.directive token) }
        ensures word { IfOk result (λ word. word ≡ word_of self.new.names (unwrap_or self.new.directive None) text.now token) }
    {
        let bytes = token.bytes(text);
        let word = match token.shape {
            Shape::Name => self.plain_word(token.name(text))?,
            Shape::Escaped => self.name_word(token.name(text))?,
            Shape::Number => Word::Number(number_value(bytes)),
            Shape::Constant => Word::Literal(constant_value(bytes)),
            Shape::Timescale => self.directive_word(text, token),
            Shape::Other => mark(bytes[0]),
            Shape::Unending => Word::Broken,
            Shape::Stray => Word::Stray,
        };
        Ok(Placed {
            word,
            start: token.start,
        })
    }
}

/// What the tokens of a text say, each at its place, with the table of its names, hashed so.
pub fn words<'a>(
    alloc: Global,
    hasher: NameHasher,
    text: &'a [u8],
) -> Result<(Names<'a>, Vec<Placed>), AllocError>
    requires { length text.now ≤ MAX_TEXT }
    ensures said { IfOk result (λ said. AreSaid text.now said.0 said.1.items) }
    ensures starts { IfOk result (λ said. AreWithin text.now said.1.items) }
{
    let mut table = Table::new(alloc, hasher);
    table.names.reserve(text.len() / BYTES_FOR_A_NAME)?;
    let mut words = Vec::with_capacity(alloc, text.len() / BYTES_FOR_A_WORD)?;
    let mut position = 0;
    while let Some(token) = next_token(text, position) {
        words.push(table.word(text, token)?)?;
        if token.is_last() {
            return Ok((table.names, words));
        }
        position = token.end as usize;
    }
    Ok((table.names, words))
}
