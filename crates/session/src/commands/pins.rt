//! The inputs of a gate, as words.

ghost use Rattle.std.specs.Prelude.{◌≡◌, ◌==◌, true, take, drop, codes, IfOk, Some, is_some};
ghost use Rattle.std.specs.List.{list_any};
ghost use Rattle.session.specs.Pins.{constant_of, pin_of, pins_of};
ghost use Rattle.session.specs.kept.Pins.{ArePins};
ghost use Rattle.session.specs.Words.{same_word, value_of};

use crate::commands::times::read_value;
use crate::words::{WordRef, Words};
use edits::{Pin, Pins, Word};
use fourstate::Value;
use std::alloc::{AllocError, Global};
use std::marker::Model;

/// Words each of which is a readable input.
#[derive(Drop)]
pub struct PinWords<'a> {
    words: Words<'a>,
}

impl<'a> Model for PinWords<'a> {
    ghost use Rattle.std.specs.Prelude.{List, [], unwrap_or};
    ghost use Rattle.edits.specs.declared.pin.Pin.{Pin};
    ghost use Rattle.session.specs.Pins.{pins_of};
    ghost use Rattle.session.specs.kept.Pins.{ArePins};

    ghost Value = { List Pin };

    ghost view = { λ p. unwrap_or (pins_of p.words) [] };

    ghost invariant = { λ p. ArePins p.words };
}

impl<'a> PinWords<'a> {
    /// The inputs that words write; none where one of them is unreadable.
    pub fn new(words: Words<'a>) -> Option<PinWords<'a>>
        ensures { result ≡ pins_of words.entry }
    {
        if are_pins(&words) {
            Some(PinWords { words })
        } else {
            None
        }
    }

    /// The inputs, with names of their own.
    pub fn to_pins(&self, alloc: Global) -> Result<Pins, AllocError>
        ensures { IfOk result (λ pins. pins ≡ self.now) }
    {
        make_pins(alloc, self.words.again())
    }
}

#[tactic(auto, using(crate::proofs::PinLemmas::pins_left, crate::proofs::PinLemmas::pins_fail))]
fn are_pins(words: &Words<'_>) -> bool
    ensures { result ≡ is_some (pins_of words.now) }
{
    let mut rest = words.again();
    while let Some(word) = rest.next() {
        if !is_input(word.as_bytes()) {
            return false;
        }
    }
    true
}

#[tactic(auto, using(crate::proofs::PinLemmas::pins_more, crate::proofs::PinLemmas::first_fits, crate::proofs::PinLemmas::others_fit))]
fn make_pins(alloc: Global, words: Words<'_>) -> Result<Pins, AllocError>
    requires { ArePins words }
    ensures { IfOk result (λ pins. pins_of words.entry ≡ Some pins) }
{
    let mut rest = words;
    let mut pins = Pins::new(alloc);
    while let Some(word) = rest.next() {
        let pin = make_pin(alloc, &word)?;
        pins.push(pin)?;
    }
    Ok(pins)
}

/// Whether a word is a readable input.
pub fn is_input(word: &[u8]) -> bool
    ensures { result ≡ is_some (pin_of word.now) }
{
    !has_apostrophe(word) || read_constant(word).is_some()
}

fn make_pin(alloc: Global, word: &WordRef<'_>) -> Result<Pin, AllocError>
    requires { is_some (pin_of word.now) ≡ true }
    ensures { IfOk result (λ pin. pin_of word.now ≡ Some pin) }
{
    if !has_apostrophe(word.as_bytes()) {
        return Ok(Pin::Net(Word::new(alloc, word.as_str())?));
    }
    match read_constant(word.as_bytes()) {
        Some(value) => Ok(Pin::Constant(value)),
        None => unreachable!(),
    }
}

fn has_apostrophe(word: &[u8]) -> bool
    ensures { result ≡ list_any (λ byte. byte == 39) word.now }
{
    word.iter().any(|byte| *byte == b'\'')
}

// The value of a constant, `1'b` and a value.
fn read_constant(word: &[u8]) -> Option<Value>
    ensures { result ≡ constant_of word.now }
{
    if word.len() >= 3 && &word[..3] == b"1'b".as_slice() {
        read_value(&word[3..])
    } else {
        None
    }
}
