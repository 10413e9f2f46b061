//! All tokens of a text.

ghost use Rattle.std.specs.Prelude.{◌≤◌, All, IfOk, length};
ghost use Rattle.lexing.specs.Texts.{Spells};
ghost use Rattle.lexing.specs.kept.Texts.{IsInside};
ghost use Rattle.lexing.specs.declared.limits.TheConstants.{MAX_TEXT};

use crate::scan::next_token;
use crate::token::Token;
use std::alloc::{AllocError, Global};

/// The tokens of a text, one after another.
pub fn tokens(alloc: Global, text: &[u8]) -> Result<Vec<Token>, AllocError>
    requires { length text.now ≤ MAX_TEXT }
    ensures list { IfOk result (λ tokens. Spells text.now 0 tokens.items) }
    ensures inside { IfOk result (λ tokens. All (IsInside (length text.now)) tokens.items) }
{
    let mut tokens = Vec::new(alloc);
    let mut position = 0;
    while let Some(token) = next_token(text, position) {
        tokens.push(token)?;
        if token.is_last() {
            return Ok(tokens);
        }
        position = token.end as usize;
    }
    Ok(tokens)
}
