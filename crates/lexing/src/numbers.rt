//! Decimal numbers (IEEE 1364-2005, 3.5.1).

ghost use Rattle.std.specs.Prelude.{◌≡◌};
ghost use Rattle.lexing.specs.Numbers.{number_of};

use crate::classes::is_digit;

/// The number that the bytes write in decimal digits. Bytes that are no digits, as `_`, have no value; a number above
/// 2^32 - 1 counts as 2^32 - 1 (own).
#[tactic(auto, using(std::proofs::lemmas::Bool::Decides::nat_tests), unfolding(crate::specs::Classes::is_digit))]
pub fn number_value(bytes: &[u8]) -> u32
    ensures { result ≡ number_of bytes.now }
{
    let mut value: u32 = 0;
    for byte in bytes {
        if is_digit(*byte) {
            value = value
                .saturating_mul(10)
                .saturating_add(u32::from(*byte - b'0'));
        }
    }
    value
}
