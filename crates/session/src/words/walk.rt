//! The words of a line, one after another.

ghost use Rattle.std.specs.Prelude.{◌≡◌, true, false, ◌∷◌, [], MatchOption};
ghost use Rattle.std.specs.List.{list_all};
ghost use Rattle.session.specs.Words.{four_words, is_plain, no_words, one_word, three_words, two_words, words};

use crate::words::scan::{are_plain, split_word, without_blanks};
use std::marker::Model;

/// A word of a line.
#[derive(Drop)]
pub struct WordRef<'a> {
    bytes: &'a [u8],
}

impl<'a> Model for WordRef<'a> {
    ghost use Rattle.std.specs.Prelude.{◌≡◌, ℕ, List, true};
    ghost use Rattle.std.specs.List.{list_all};
    ghost use Rattle.session.specs.Words.{is_plain};

    ghost Value = { List ℕ };

    ghost view = { λ w. w.bytes.now };

    ghost invariant = { λ w. list_all is_plain w.bytes.now ≡ true };
}

impl<'a> WordRef<'a> {
    /// The word as text.
    pub fn as_str(&self) -> &str
        ensures { result.now ≡ self.now }
    {
        match str::from_utf8(self.bytes) {
            Ok(text) => text,
            Err(_) => unreachable!(),
        }
    }

    /// The word's bytes.
    pub fn as_bytes(&self) -> &[u8]
        ensures { result.now ≡ self.now }
    {
        self.bytes
    }
}

/// The words of a line that were not taken yet.
#[derive(Drop)]
pub struct Words<'a> {
    rest: &'a [u8],
}

impl<'a> Model for Words<'a> {
    ghost use Rattle.std.specs.Prelude.{◌≡◌, ℕ, List, true};
    ghost use Rattle.std.specs.List.{list_all};
    ghost use Rattle.session.specs.Words.{is_plain, words};

    ghost Value = { List (List ℕ) };

    ghost view = { λ w. words w.rest.now };

    ghost invariant = { λ w. list_all is_plain w.rest.now ≡ true };
}

impl<'a> Words<'a> {
    /// The words of a line; none exactly where it holds a byte that no line may hold.
    pub fn new(line: &'a [u8]) -> Option<Words<'a>>
        ensures { MatchOption result (list_all is_plain line.now ≡ false)
            (λ found. (list_all is_plain line.now ≡ true) × (found ≡ words line.now)) }
    {
        if are_plain(line) {
            Some(Words { rest: line })
        } else {
            None
        }
    }

    /// Takes the next word.
    pub fn next(&mut self) -> Option<WordRef<'a>>
        ensures { MatchOption result ((self.old ≡ []) × (self.new ≡ [])) (λ word. self.old ≡ word ∷ self.new) }
    {
        let text = without_blanks(self.rest);
        if text.is_empty() {
            return None;
        }
        let (bytes, rest) = split_word(text);
        self.rest = rest;
        Some(WordRef { bytes })
    }

    /// The same words, to be walked once more.
    pub fn again(&self) -> Words<'a>
        ensures { result ≡ self.now }
    {
        Words { rest: self.rest }
    }

    /// Whether no words are left.
    pub fn none(mut self) -> bool
        ensures { result ≡ no_words self.entry }
    {
        self.next().is_none()
    }

    /// The one word that is left, if there is exactly one.
    pub fn one(mut self) -> Option<WordRef<'a>>
        ensures { result ≡ one_word self.entry }
    {
        let first = self.next()?;
        if self.none() { Some(first) } else { None }
    }

    /// The two words that are left, if there are exactly two.
    pub fn two(mut self) -> Option<(WordRef<'a>, WordRef<'a>)>
        ensures { result ≡ two_words self.entry }
    {
        let first = self.next()?;
        let second = self.next()?;
        if self.none() {
            Some((first, second))
        } else {
            None
        }
    }

    /// The three words that are left, if there are exactly three.
    pub fn three(mut self) -> Option<(WordRef<'a>, WordRef<'a>, WordRef<'a>)>
        ensures { result ≡ three_words self.entry }
    {
        let first = self.next()?;
        let second = self.next()?;
        let third = self.next()?;
        if self.none() {
            Some((first, second, third))
        } else {
            None
        }
    }

    /// The four words that are left, if there are exactly four.
    pub fn four(mut self) -> Option<(WordRef<'a>, WordRef<'a>, WordRef<'a>, WordRef<'a>)>
        ensures { result ≡ four_words self.entry }
    {
        let first = self.next()?;
        let (second, third, fourth) = self.three()?;
        Some((first, second, third, fourth))
    }
}
