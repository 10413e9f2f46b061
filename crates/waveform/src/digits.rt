//! Values as numbers of two bits.

ghost use Rattle.std.specs.Prelude.{◌≡◌};
ghost use Rattle.waveform.specs.kept.Digits.{value_of_digit};

use fourstate::Value;

/// How many values there are.
pub const VALUES: u64 = 4;

/// The value of this number.
#[inline(always)]
pub fn value_of_digit(digit: u64) -> Value
    ensures { result ≡ value_of_digit digit }
{
    match digit {
        0 => Value::Zero,
        1 => Value::One,
        2 => Value::Unknown,
        _ => Value::HighZ,
    }
}
