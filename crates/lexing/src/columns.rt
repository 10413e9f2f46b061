//! Columns of a text.

ghost use Rattle.std.specs.Prelude.{◌≡◌, ◌≤◌, ◌==◌, not, length, reverse};
ghost use Rattle.std.specs.List.{prefix_len};
ghost use Rattle.lexing.specs.Columns.{column_of};

/// The column of the byte at this place, from 1: one more than the number of bytes between it and the line feed before it, or
/// the text's beginning.
pub fn column(text: &[u8], at: usize) -> usize
    requires { at ≤ length text.now }
    ensures { result ≡ column_of text.now at }
{
    1 + length_of_last(&text[..at])
}

/// How many bytes the last line has.
fn length_of_last(bytes: &[u8]) -> usize
    ensures value { result ≡ prefix_len (λ b. not (b == 10)) (reverse bytes.now) }
    ensures within { result ≤ length bytes.now }
{
    bytes
        .iter()
        .rev()
        .take_while(|byte| **byte != b'\n')
        .count()
}
