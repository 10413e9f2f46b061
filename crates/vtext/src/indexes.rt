//! What indexes of terminals do with a word, in each state of the parser.

ghost use Rattle.std.specs.Prelude.{◌≡◌, IfOk};
ghost use Rattle.vtext.specs.kept.Readings.{view};
ghost use Rattle.vtext.specs.Turns.{behind, index, index_end, index_name, index_start};
ghost use Rattle.vtext.specs.kept.Turns.{IsTurn};

use crate::causes::misfit;
use crate::draft::Draft;
use crate::names::Names;
use crate::parser_state::{Indexed, ParserState};
use crate::turn::Turn;
use crate::word::Word;
use std::alloc::AllocError;

/// Behind a terminal.
pub fn behind(of: Indexed) -> ParserState
    ensures { result ≡ behind of }
{
    match of {
        Indexed::Gate => ParserState::TerminalEnd,
        Indexed::Ordered => ParserState::OrderedEnd,
        Indexed::Named => ParserState::NamedClose,
    }
}

impl Draft {
    /// A net that an index follows is named.
    pub fn index_name(&mut self, of: Indexed, names: &Names, name: u32) -> Result<Turn, AllocError>
        ensures { IfOk result (λ turn. IsTurn turn (view self.new) (index_name of names.now (view self.old) name)) }
    {
        let said = self.net(name);
        if let Some(cause) = self.use_cause(names, name, said) {
            return Ok(Turn::Refused(cause));
        }
        self.note_net(name, said)?;
        self.indexed = name;
        Ok(Turn::To(ParserState::IndexStart(of)))
    }

    /// Behind a name that an index follows.
    pub fn index_start(&self, of: Indexed, word: Word) -> Turn
        ensures { IsTurn result (view self.now) (index_start of (view self.now) word) }
    {
        match word {
            Word::OpenBracket => Turn::To(ParserState::Index(of)),
            other => Turn::Refused(misfit(other)),
        }
    }

    /// Behind the `[` of an index.
    pub fn index(&mut self, of: Indexed, word: Word) -> Result<Turn, AllocError>
        ensures { IfOk result (λ turn. IsTurn turn (view self.new) (index of (view self.old) word)) }
    {
        match word {
            Word::Number(number) => {
                if let Some(cause) = self.index_cause(number) {
                    return Ok(Turn::Refused(cause));
                }
                self.add_bit(of, number as u16)?;
                Ok(Turn::To(ParserState::IndexEnd(of)))
            }
            other => Ok(Turn::Refused(misfit(other))),
        }
    }

    /// Behind the number of an index.
    pub fn index_end(&self, of: Indexed, word: Word) -> Turn
        ensures { IsTurn result (view self.now) (index_end of (view self.now) word) }
    {
        match word {
            Word::CloseBracket => Turn::To(behind(of)),
            other => Turn::Refused(misfit(other)),
        }
    }
}
