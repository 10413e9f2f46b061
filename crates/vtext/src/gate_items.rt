//! What gate items do with a word, in each state of the parser.

ghost use Rattle.std.specs.Prelude.{◌≡◌, ◌<◌, ◌-◌, ◌^◌, IfOk};
ghost use Rattle.vtext.specs.kept.Readings.{view};
ghost use Rattle.vtext.specs.Turns.{delay, delay_number, fall_end, gate_start, instance_open, instance_start, off_end, plain_terminal, rise_end, terminal_end, terminal_start, with_number};
ghost use Rattle.vtext.specs.kept.Turns.{IsTurn};

use crate::cause::Cause;
use crate::causes::{delay_cause, is_index, misfit};
use crate::draft::Draft;
use crate::gate::Terminal;
use crate::names::Names;
use crate::parser_state::{DelayNumber, Indexed, ParserState};
use crate::turn::Turn;
use crate::word::Word;
use fourstate::{DelayTimes, takes_off};
use std::alloc::{AllocError, Global};

impl Draft {
    /// Behind the word of a gate kind.
    pub fn gate_start(&mut self, word: Word) -> Result<Turn, AllocError>
        ensures { IfOk result (λ turn. IsTurn turn (view self.new) (gate_start (view self.old) word)) }
    {
        match word {
            Word::Hash => Ok(Turn::To(ParserState::Delay)),
            other => self.instance_start(other),
        }
    }

    /// Behind `#`.
    pub fn delay(&mut self, word: Word) -> Turn
        ensures { IsTurn result (view self.new) (delay (view self.old) word) }
    {
        match word {
            Word::Open => Turn::To(ParserState::RiseDelay),
            other => self.delay_number(DelayNumber::Rise, ParserState::InstanceStart, other),
        }
    }

    /// Where a number of a delay is wanted.
    pub fn delay_number(&mut self, of: DelayNumber, to: ParserState, word: Word) -> Turn
        ensures { IsTurn result (view self.new) (delay_number of to (view self.old) word) }
    {
        match word {
            Word::Number(time) => {
                if let Some(cause) = delay_cause(time) {
                    return Turn::Refused(cause);
                }
                self.item.delays = with_number(self.item.delays, of, u64::from(time));
                Turn::To(to)
            }
            other => Turn::Refused(misfit(other)),
        }
    }

    /// Behind the first number of a delay in parentheses.
    pub fn rise_end(&self, word: Word) -> Turn
        ensures { IsTurn result (view self.now) (rise_end (view self.now) word) }
    {
        match word {
            Word::Comma => Turn::To(ParserState::FallDelay),
            Word::Close => Turn::To(ParserState::InstanceStart),
            other => Turn::Refused(misfit(other)),
        }
    }

    /// Behind the second number of a delay: a third one follows only for a kind that takes a turn-off delay.
    pub fn fall_end(&self, word: Word) -> Turn
        ensures { IsTurn result (view self.now) (fall_end (view self.now) word) }
    {
        match word {
            Word::Comma if takes_off(self.item.kind) => Turn::To(ParserState::OffDelay),
            Word::Close => Turn::To(ParserState::InstanceStart),
            other => Turn::Refused(misfit(other)),
        }
    }

    /// Behind the third number of a delay.
    pub fn off_end(&self, word: Word) -> Turn
        ensures { IsTurn result (view self.now) (off_end (view self.now) word) }
    {
        match word {
            Word::Close => Turn::To(ParserState::InstanceStart),
            other => Turn::Refused(misfit(other)),
        }
    }

    /// Where a gate instance begins.
    #[inline(always)]
    pub fn instance_start(&mut self, word: Word) -> Result<Turn, AllocError>
        ensures { IfOk result (λ turn. IsTurn turn (view self.new) (instance_start (view self.old) word)) }
    {
        match word {
            Word::Name(name) => {
                if !self.name_instance(name)? {
                    return Ok(Turn::Refused(Cause::DuplicateName));
                }
                Ok(Turn::To(ParserState::InstanceOpen))
            }
            Word::Misnamed => Ok(Turn::Refused(Cause::BadName)),
            Word::Open => {
                self.instance.name = None;
                Ok(Turn::To(ParserState::TerminalStart))
            }
            other => Ok(Turn::Refused(misfit(other))),
        }
    }

    /// Behind the name of a gate instance.
    pub fn instance_open(&self, word: Word) -> Turn
        ensures { IsTurn result (view self.now) (instance_open (view self.now) word) }
    {
        match word {
            Word::Open => Turn::To(ParserState::TerminalStart),
            other => Turn::Refused(misfit(other)),
        }
    }

    /// Where a terminal is wanted.
    pub fn terminal_start(
        &mut self,
        names: &Names,
        word: Word,
        after: Option<Word>,
    ) -> Result<Turn, AllocError>
        ensures { IfOk result (λ turn. IsTurn turn (view self.new) (terminal_start names.now (view self.old) word after)) }
    {
        match word {
            Word::Name(name) => {
                if is_index(after) {
                    self.index_name(Indexed::Gate, names, name)
                } else {
                    self.plain_terminal(names, name)
                }
            }
            Word::Misnamed => Ok(Turn::Refused(Cause::BadName)),
            Word::Literal(value) => {
                self.add_terminal(Terminal::Constant(value))?;
                Ok(Turn::To(ParserState::TerminalEnd))
            }
            other => Ok(Turn::Refused(misfit(other))),
        }
    }

    /// A terminal without an index is named.
    fn plain_terminal(&mut self, names: &Names, name: u32) -> Result<Turn, AllocError>
        ensures { IfOk result (λ turn. IsTurn turn (view self.new) (plain_terminal names.now (view self.old) name)) }
    {
        let said = self.net(name);
        if let Some(cause) = self.terminal_cause(names, name, said) {
            return Ok(Turn::Refused(cause));
        }
        self.note_net(name, said)?;
        self.add_terminal(Terminal::Net(name))?;
        Ok(Turn::To(ParserState::TerminalEnd))
    }

    /// Behind a terminal.
    pub fn terminal_end(
        &mut self,
        alloc: Global,
        names: &Names,
        word: Word,
    ) -> Result<Turn, AllocError>
        requires { (view self.old).unnamed < 2 ^ 64 - 1 }
        ensures { IfOk result (λ turn. IsTurn turn (view self.new) (terminal_end names.now (view self.old) word)) }
    {
        match word {
            Word::Comma => Ok(Turn::To(ParserState::TerminalStart)),
            Word::Close => {
                if let Some(cause) = self.completed_cause(alloc, names)? {
                    return Ok(Turn::Refused(cause));
                }
                self.complete(alloc, names)?;
                Ok(Turn::To(ParserState::InstanceEnd))
            }
            other => Ok(Turn::Refused(misfit(other))),
        }
    }
}

fn with_number(delays: DelayTimes, of: DelayNumber, time: u64) -> DelayTimes
    ensures { result ≡ with_number delays of time }
{
    match of {
        DelayNumber::Rise => DelayTimes::uniform(time),
        DelayNumber::Fall => delays.with_fall(time),
        DelayNumber::Off => delays.with_off(time),
    }
}
