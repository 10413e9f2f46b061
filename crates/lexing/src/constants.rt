//! Constants of one bit (IEEE 1364-2005, 3.5.1).

ghost use Rattle.std.specs.Prelude.{◌≡◌};
ghost use Rattle.lexing.specs.Constants.{begins_constant, constant_of};

use crate::classes::is_value_digit;
use fourstate::Value;

/// The value of a constant token's bytes: that of the byte behind `1'b`. Where there is no such byte, or it writes no
/// value, it is x.
pub fn constant_value(bytes: &[u8]) -> Value
    ensures { result ≡ constant_of bytes.now }
{
    if bytes.len() < 4 {
        return Value::Unknown;
    }
    match bytes[3] {
        b'0' => Value::Zero,
        b'1' => Value::One,
        b'z' | b'Z' => Value::HighZ,
        _ => Value::Unknown,
    }
}

/// Whether a constant stands in front of the bytes; then it has four.
#[tactic(auto, using(std::proofs::lemmas::Bool::Decides::nat_tests), unfolding(crate::specs::Constants::begins_constant))]
pub fn begins_constant(bytes: &[u8]) -> bool
    ensures { result ≡ begins_constant bytes.now }
{
    bytes.len() >= 4
        && bytes[0] == b'1'
        && bytes[1] == b'\''
        && (bytes[2] == b'b' || bytes[2] == b'B')
        && is_value_digit(bytes[3])
}
