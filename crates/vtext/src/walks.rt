//! The first pass over the words of a text.

ghost use Rattle.std.specs.Prelude.{◌≡◌, None, IfErr, IfOk};
ghost use Rattle.vtext.specs.declared.parser_state.ParserState.TheVariants.{Outside};
ghost use Rattle.vtext.specs.kept.Readings.{view};
ghost use Rattle.vtext.specs.kept.Sound.{AreGoodWords};
ghost use Rattle.vtext.specs.Walks.{Leads, start, word_at};
ghost use Rattle.vtext.specs.kept.Walks.{IsRefusal};

use crate::bits::bits_of;
use crate::cause::Cause;
use crate::draft::Draft;
use crate::names::Names;
use crate::parser_state::ParserState;
use crate::turn::Turn;
use crate::turns::Lookahead;
use crate::word::{Placed, Word};
use std::alloc::{AllocError, Global};

/// Why a list of words was refused.
#[derive(Clone, Copy, Debug, PartialEq, Eq)]
pub enum Refusal {
    OutOfMemory,
    /// The first word that is refused, by its place, and why; past the last word where the list ends too early.
    Fault(usize, Cause),
}

impl From<AllocError> for Refusal {
    ghost use Rattle.std.specs.Prelude.{◌≡◌};
    ghost use Rattle.vtext.specs.declared.walks.Refusal.TheVariants.{OutOfMemory};

    ghost from_gives = { λ _ refusal. refusal ≡ OutOfMemory };

    fn from(_error: AllocError) -> Refusal {
        Refusal::OutOfMemory
    }
}

/// The word at a place.
fn word_at(words: &[Placed], place: usize) -> Option<Word>
    ensures { result ≡ word_at words.now place }
{
    match words.get(place) {
        Some(next) => Some(next.word),
        None => None,
    }
}

/// What a list of words says, or its first fault.
pub fn walk(
    alloc: Global,
    default: Option<u32>,
    names: &Names,
    words: &[Placed],
) -> Result<Draft, Refusal>
    requires good { AreGoodWords names.now words.now }
    ensures text { IfOk result (λ draft. Leads default names.now start words.now None (record { state = Outside; so_far = view draft })) }
    ensures fault { IfErr result (IsRefusal default names.now words.now) }
{
    let bits = bits_of(alloc, names)?;
    let mut draft = Draft::new(alloc);
    let mut state = ParserState::Outside;
    for i in 0..words.len() {
        match draft.turn(
            alloc,
            default,
            names,
            bits.as_slice(),
            state,
            Lookahead {
                next: words[i],
                after: word_at(words, i + 1),
            },
        )? {
            Turn::To(to) => state = to,
            Turn::Refused(cause) => return Err(Refusal::Fault(i, cause)),
        }
    }
    match state {
        ParserState::Outside => Ok(draft),
        _ => Err(Refusal::Fault(words.len(), Cause::Syntax)),
    }
}
