//! How tokens are shown.

ghost use Rattle.std.specs.Prelude.{◌≡◌, length, take};
ghost use Rattle.lexing.specs.Shown.{shown_bytes};
ghost use Rattle.lexing.specs.kept.Texts.{IsInside};

use crate::token::{Shape, Token};

/// The bytes by which a token is shown: as it is written, but of a comment or an attribute that doesn't end the first two, and
/// of a directive its word (own).
pub fn shown(text: &[u8], token: Token) -> &[u8]
    requires { IsInside (length text.now) token }
    ensures { result.now ≡ shown_bytes text.now token }
{
    let bytes = token.bytes(text);
    match token.shape {
        Shape::Unending => front(bytes, "/*".len()),
        Shape::Timescale => front(bytes, "`timescale".len()),
        _ => bytes,
    }
}

/// So many bytes in front, or all of them where there are fewer.
fn front(bytes: &[u8], count: usize) -> &[u8]
    ensures { result.now ≡ take count bytes.now }
{
    &bytes[..count.min(bytes.len())]
}
