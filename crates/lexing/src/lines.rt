//! Lines of a text.

ghost use Rattle.std.specs.Prelude.{◌≡◌, ◌≤◌, length};
ghost use Rattle.lexing.specs.Lines.{line_of};

/// The line of the byte at this place, from 1: one more than the number of line feeds before it. At the text's length it
/// is the line of the text's end.
pub fn line(text: &[u8], at: usize) -> usize
    requires { at ≤ length text.now }
    ensures { result ≡ line_of text.now at }
{
    1 + text[..at].iter().filter(|byte| **byte == b'\n').count()
}
