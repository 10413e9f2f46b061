//! Numbers in words.

ghost use Rattle.std.specs.Prelude.{◌≡◌, ◌+◌, ◌-◌, ◌*◌, ◌^◌, min};
ghost use Rattle.std.specs.List.{list_all};
ghost use Rattle.session.specs.Words.{decimal_value, is_digit, number_of};

/// The number that a word of decimal digits writes, one above `u64::MAX` counting as that; none of any other word.
pub fn number(word: &[u8]) -> Option<u64>
    ensures { result ≡ number_of word.now }
{
    if !word.is_empty() && are_digits(word) {
        Some(digits_value(word))
    } else {
        None
    }
}

fn are_digits(word: &[u8]) -> bool
    ensures { result ≡ list_all is_digit word.now }
{
    word.iter().all(|byte| b'0' <= *byte && *byte <= b'9')
}

#[tactic(auto, using(crate::proofs::WordLemmas::value_with_digit))]
fn digits_value(digits: &[u8]) -> u64
    ensures { result ≡ min (decimal_value digits.now) (2 ^ 64 - 1) }
{
    let mut value = 0;
    for digit in digits {
        value = with_digit(value, *digit);
    }
    value
}

// The number with a digit more behind it.
fn with_digit(value: u64, digit: u8) -> u64
    ensures { result ≡ min (10 * value + (digit - 48)) (2 ^ 64 - 1) }
{
    value
        .saturating_mul(10)
        .saturating_add(u64::from(digit.saturating_sub(b'0')))
}
