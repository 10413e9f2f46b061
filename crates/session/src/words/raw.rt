//! The words of a line, whatever bytes it holds.

ghost use Rattle.std.specs.Prelude.{◌≡◌, ◌∷◌, [], MatchOption};
ghost use Rattle.session.specs.Words.{words};

use crate::words::scan::{split_word, without_blanks};
use std::marker::Model;

/// The words of a line that were not taken yet. Their bytes are not looked at.
#[derive(Drop)]
pub struct RawWords<'a> {
    rest: &'a [u8],
}

impl<'a> Model for RawWords<'a> {
    ghost use Rattle.std.specs.Prelude.{ℕ, List};
    ghost use Rattle.session.specs.Words.{words};

    ghost Value = { List (List ℕ) };

    ghost view = { λ w. words w.rest.now };
}

impl<'a> RawWords<'a> {
    /// The words of a line.
    pub fn new(line: &'a [u8]) -> RawWords<'a>
        ensures { result ≡ words line.now }
    {
        RawWords { rest: line }
    }

    /// Takes the next word.
    pub fn next(&mut self) -> Option<&'a [u8]>
        ensures { MatchOption result ((self.old ≡ []) × (self.new ≡ [])) (λ word. self.old ≡ word.now ∷ self.new) }
    {
        let text = without_blanks(self.rest);
        if text.is_empty() {
            return None;
        }
        let (word, rest) = split_word(text);
        self.rest = rest;
        Some(word)
    }

    /// The same words, to be walked once more.
    pub fn again(&self) -> RawWords<'a>
        ensures { result ≡ self.now }
    {
        RawWords { rest: self.rest }
    }
}
