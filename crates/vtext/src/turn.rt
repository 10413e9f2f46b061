//! What a state of the parser does with a word.

use crate::cause::Cause;
use crate::parser_state::ParserState;

/// What a state of the parser does with a word.
#[derive(Clone, Copy, Debug, PartialEq, Eq)]
pub enum Turn {
    /// The word leads to this state.
    To(ParserState),
    /// The word is refused.
    Refused(Cause),
}
