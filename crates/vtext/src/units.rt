//! Time units of directives.

ghost use Rattle.std.specs.Prelude.{◌≡◌, ◌≤◌, length};
ghost use Rattle.lexing.specs.kept.Texts.{IsInside};
ghost use Rattle.vtext.specs.Words.{directive_word, magnitude_power, power_of, same_unit, unit_at, unit_power};

use crate::word::Word;
use fourstate::{Magnitude, TimeUnit, Unit};
use lexing::{Token, timescale};

fn magnitude_power(magnitude: Magnitude) -> u8
    ensures value { result ≡ magnitude_power magnitude }
    ensures small { result ≤ 2 }
{
    match magnitude {
        Magnitude::One => 0,
        Magnitude::Ten => 1,
        Magnitude::Hundred => 2,
    }
}

fn unit_power(unit: Unit) -> u8
    ensures value { result ≡ unit_power unit }
    ensures small { result ≤ 15 }
{
    match unit {
        Unit::Femtosecond => 0,
        Unit::Picosecond => 3,
        Unit::Nanosecond => 6,
        Unit::Microsecond => 9,
        Unit::Millisecond => 12,
        Unit::Second => 15,
    }
}

fn power(unit: TimeUnit) -> u8
    ensures { result ≡ power_of unit }
{
    unit_power(unit.unit) + magnitude_power(unit.magnitude)
}

fn is_same(first: TimeUnit, this: TimeUnit) -> bool
    ensures { result ≡ same_unit first this }
{
    power(first) == power(this)
}

/// What a directive of this unit says, after the first one.
pub fn directive_word(first: Option<TimeUnit>, this: Option<TimeUnit>) -> Word
    ensures { result ≡ directive_word first this }
{
    match (first, this) {
        (Some(first), Some(this)) => {
            if is_same(first, this) {
                Word::Timescale(this)
            } else {
                Word::Refused
            }
        }
        _ => Word::Refused,
    }
}

/// The unit of a directive.
pub fn unit_at(text: &[u8], token: Token) -> Option<TimeUnit>
    requires { IsInside (length text.now) token }
    ensures { result ≡ unit_at text.now token }
{
    timescale(&text[token.start as usize..])
}
