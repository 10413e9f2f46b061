//! What ranges of declarations do with a word, in each state of the parser.

ghost use Rattle.std.specs.Prelude.{◌≡◌};
ghost use Rattle.vtext.specs.kept.Readings.{view};
ghost use Rattle.vtext.specs.Turns.{bound_colon, left_bound, names_of, range_end, right_bound, with_right};
ghost use Rattle.vtext.specs.kept.Turns.{IsTurn};

use crate::causes::{bound_cause, misfit};
use crate::draft::Draft;
use crate::parser_state::{Declared, ParserState};
use crate::range::Range;
use crate::turn::Turn;
use crate::word::Word;

/// Where the names of a declaration are read.
fn names_of(of: Declared) -> ParserState
    ensures { result ≡ names_of of }
{
    match of {
        Declared::InlinePort => ParserState::InlineName,
        Declared::Port => ParserState::PortName,
        Declared::Net => ParserState::NetName,
    }
}

/// The range of this right bound.
fn with_right(range: Option<Range>, right: u16) -> Option<Range>
    ensures { result ≡ with_right range right }
{
    let range = range?;
    Some(Range { right, ..range })
}

impl Draft {
    /// Behind the `[` of a range.
    pub fn left_bound(&mut self, of: Declared, word: Word) -> Turn
        ensures { IsTurn result (view self.new) (left_bound of (view self.old) word) }
    {
        match word {
            Word::Number(number) => {
                if let Some(cause) = bound_cause(number) {
                    return Turn::Refused(cause);
                }
                let bound = number as u16;
                self.declaration.range = Some(Range {
                    left: bound,
                    right: bound,
                });
                Turn::To(ParserState::BoundColon(of))
            }
            other => Turn::Refused(misfit(other)),
        }
    }

    /// Behind the left bound of a range.
    pub fn bound_colon(&self, of: Declared, word: Word) -> Turn
        ensures { IsTurn result (view self.now) (bound_colon of (view self.now) word) }
    {
        match word {
            Word::Colon => Turn::To(ParserState::RightBound(of)),
            other => Turn::Refused(misfit(other)),
        }
    }

    /// Behind the `:` of a range.
    pub fn right_bound(&mut self, of: Declared, word: Word) -> Turn
        ensures { IsTurn result (view self.new) (right_bound of (view self.old) word) }
    {
        match word {
            Word::Number(number) => {
                if let Some(cause) = bound_cause(number) {
                    return Turn::Refused(cause);
                }
                self.declaration.range = with_right(self.declaration.range, number as u16);
                Turn::To(ParserState::RangeEnd(of))
            }
            other => Turn::Refused(misfit(other)),
        }
    }

    /// Behind the right bound of a range.
    pub fn range_end(&self, of: Declared, word: Word) -> Turn
        ensures { IsTurn result (view self.now) (range_end of (view self.now) word) }
    {
        match word {
            Word::CloseBracket => Turn::To(names_of(of)),
            other => Turn::Refused(misfit(other)),
        }
    }
}
