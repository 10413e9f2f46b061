//! Laws of tokens: each contract is the law, and no function gives anything.

ghost use Rattle.std.specs.Prelude.{◌≡◌, ◌<◌, ◌++◌, ◌∷◌, [], ℕ, List, true, length, take};
ghost use Rattle.lexing.specs.Lexemes.{IsLongest, spells};
ghost use Rattle.lexing.specs.Directives.{timescale_of};
ghost use Rattle.lexing.specs.Texts.{Spells};
ghost use Rattle.lexing.specs.kept.Texts.{is_fault};
ghost use Rattle.lexing.specs.declared.token.Shape as shapes;
ghost use Rattle.lexing.specs.declared.token.Token.{Token};

use crate::lexemes::first_lexeme;
use crate::limits::MAX_TEXT;
use crate::spaces::{White, white_space};
use crate::token::Shape;

/// A text spells, from whatever place on, no two token lists.
#[tactic(auto, using(crate::proofs::LawLemmas::one_list))]
pub fn one_spelling(text: &[u8])
    ensures { (from : ℕ) (a b : List Token) → Spells text.now from a → Spells text.now from b → a ≡ b }
{}

/// The longest token in front of the bytes is one, in shape and in length.
#[tactic(auto, using(crate::proofs::ShapeLemmas::one_longest))]
pub fn one_longest_token(bytes: &[u8])
    ensures { (kind rival : shapes.Shape) (m n : ℕ) → IsLongest bytes.now kind m → IsLongest bytes.now rival n → (kind ≡ rival) × (m ≡ n) }
{}

/// No bytes are tokens of two shapes.
#[tactic(auto, using(crate::proofs::ShapeLemmas::one_shape))]
pub fn one_shape_of_bytes(bytes: &[u8])
    requires { 0 < length bytes.now }
    ensures { (kind rival : shapes.Shape) → spells kind bytes.now ≡ true → spells rival bytes.now ≡ true → kind ≡ rival }
{}

/// A directive's own bytes say what all bytes that begin with it say.
#[tactic(auto, using(crate::proofs::LexemeLemmas::unit_of_bytes))]
pub fn one_time_unit(bytes: &[u8])
    ensures { (n : ℕ) → spells Shape.Timescale (take n bytes.now) ≡ true → timescale_of (take n bytes.now) ≡ timescale_of bytes.now }
{}

/// A comment or an attribute that doesn't end and a stray byte are always the last token.
#[tactic(auto, using(crate::proofs::LawLemmas::nothing_behind))]
pub fn faults_end_the_list(text: &[u8])
    ensures { (from : ℕ) (before after : List Token) (token : Token) → Spells text.now from (before ++ token ∷ after) →
        is_fault token.shape ≡ true → after ≡ [] }
{}

/// Each text spells a token list: it is found by walking through the text.
pub fn some_spelling(text: &[u8])
    ensures { (tokens : List Token) × Spells text.now 0 tokens }
{
    let mut position = 0;
    while position < text.len() {
        let rest = &text[position..];
        match white_space(rest) {
            White::Takes(length) => position += length,
            White::Unending => return,
            White::Nothing => {
                let lexeme = first_lexeme(rest);
                match lexeme.shape {
                    Shape::Stray => return,
                    _ => position += lexeme.length,
                }
            }
        }
    }
}

/// The limit of a text has this number.
pub fn limits()
    ensures { MAX_TEXT ≡ 4194304 }
{}
