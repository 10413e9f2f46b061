//! The numbers of a command line.

ghost use Rattle.std.specs.Prelude.{◌≡◌, ◌≤◌, IfSome};
ghost use Rattle.programs.specs.Numbers.{number_of_text, within};

// The number, if it is neither below the least nor above the most.
fn within(least: u64, most: u64, number: u64) -> Option<u64>
    ensures kept { result ≡ within least most number }
    ensures least { IfSome result (λ n. least ≤ n) }
    ensures most { IfSome result (λ n. n ≤ most) }
{
    if least <= number && number <= most {
        Some(number)
    } else {
        None
    }
}

/// The number of this range that a text writes, in digits alone.
pub fn number_of(text: &str, least: u64, most: u64) -> Option<u64>
    ensures written { result ≡ number_of_text least most text.now }
    ensures least { IfSome result (λ n. least ≤ n) }
    ensures most { IfSome result (λ n. n ≤ most) }
{
    if text.starts_with('+') {
        return None;
    }
    match text.parse::<u64>() {
        Ok(number) => within(least, most, number),
        Err(_) => None,
    }
}
