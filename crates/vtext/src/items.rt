//! What the items of a module do with a word, in each state of the parser.

ghost use Rattle.std.specs.Prelude.{◌≡◌, IfOk};
ghost use Rattle.vtext.specs.Bits.{bit_names};
ghost use Rattle.vtext.specs.kept.Readings.{view};
ghost use Rattle.vtext.specs.Turns.{items, list_next, net_name, net_start, port_kind, port_name, port_start};
ghost use Rattle.vtext.specs.kept.Turns.{IsTurn};

use crate::bits::BitName;
use crate::cause::Cause;
use crate::causes::{gate_cause, misfit};
use crate::draft::{Declaration, Draft, GateItem};
use crate::names::Names;
use crate::parser_state::{Declared, ParserState};
use crate::turn::Turn;
use crate::word::Word;
use fourstate::DelayTimes;
use std::alloc::{AllocError, Global};

impl Draft {
    /// Between the items of a module.
    pub fn items(
        &mut self,
        alloc: Global,
        default: Option<u32>,
        word: Word,
        after: Option<Word>,
    ) -> Result<Turn, AllocError>
        ensures { IfOk result (λ turn. IsTurn turn (view self.new) (items default (view self.old) word after)) }
    {
        match word {
            Word::PortWord(direction) => {
                if let Some(cause) = self.direction_cause() {
                    return Ok(Turn::Refused(cause));
                }
                self.declaration = Declaration {
                    direction,
                    kind: None,
                    range: None,
                };
                Ok(Turn::To(ParserState::PortStart))
            }
            Word::NetWord(kind) => {
                self.declaration.kind = Some(kind);
                self.declaration.range = None;
                Ok(Turn::To(ParserState::NetStart))
            }
            Word::GateWord(kind) => {
                if let Some(cause) = gate_cause(default, after) {
                    return Ok(Turn::Refused(cause));
                }
                let delay = u64::from(default.unwrap_or(0));
                self.item = GateItem {
                    kind,
                    delays: DelayTimes::uniform(delay),
                };
                Ok(Turn::To(ParserState::GateStart))
            }
            Word::Endmodule => {
                if let Some(cause) = self.end_cause() {
                    return Ok(Turn::Refused(cause));
                }
                self.finish(alloc)?;
                Ok(Turn::To(ParserState::Outside))
            }
            Word::Name(name) => {
                self.module_instance.of = name;
                Ok(Turn::To(ParserState::ModuleInstanceName))
            }
            Word::Misnamed => Ok(Turn::Refused(Cause::BadName)),
            other => Ok(Turn::Refused(misfit(other))),
        }
    }

    /// Behind the direction of an item.
    pub fn port_start(
        &mut self,
        names: &Names,
        bits: &[BitName],
        word: Word,
    ) -> Result<Turn, AllocError>
        requires { bits.now ≡ bit_names names.now }
        ensures { IfOk result (λ turn. IsTurn turn (view self.new) (port_start names.now (view self.old) word)) }
    {
        match word {
            Word::NetWord(kind) => {
                self.declaration.kind = Some(kind);
                Ok(Turn::To(ParserState::PortKind))
            }
            other => self.port_kind(names, bits, other),
        }
    }

    /// Behind the net kind of an item with a direction, or a direction without one.
    pub fn port_kind(
        &mut self,
        names: &Names,
        bits: &[BitName],
        word: Word,
    ) -> Result<Turn, AllocError>
        requires { bits.now ≡ bit_names names.now }
        ensures { IfOk result (λ turn. IsTurn turn (view self.new) (port_kind names.now (view self.old) word)) }
    {
        match word {
            Word::OpenBracket => Ok(Turn::To(ParserState::LeftBound(Declared::Port))),
            other => self.port_name(names, bits, other),
        }
    }

    /// Where a port declaration wants a name.
    #[inline(always)]
    pub fn port_name(
        &mut self,
        names: &Names,
        bits: &[BitName],
        word: Word,
    ) -> Result<Turn, AllocError>
        requires { bits.now ≡ bit_names names.now }
        ensures { IfOk result (λ turn. IsTurn turn (view self.new) (port_name names.now (view self.old) word)) }
    {
        match word {
            Word::Name(name) => {
                if let Some(cause) = self.port_cause(names, bits, name) {
                    return Ok(Turn::Refused(cause));
                }
                self.direct_port(name)?;
                Ok(Turn::To(ParserState::PortNext))
            }
            other => Ok(Turn::Refused(misfit(other))),
        }
    }

    /// Behind the net kind of an item.
    pub fn net_start(
        &mut self,
        names: &Names,
        bits: &[BitName],
        word: Word,
    ) -> Result<Turn, AllocError>
        requires { bits.now ≡ bit_names names.now }
        ensures { IfOk result (λ turn. IsTurn turn (view self.new) (net_start names.now (view self.old) word)) }
    {
        match word {
            Word::OpenBracket => Ok(Turn::To(ParserState::LeftBound(Declared::Net))),
            other => self.net_name(names, bits, other),
        }
    }

    /// Where a net declaration wants a name.
    #[inline(always)]
    pub fn net_name(
        &mut self,
        names: &Names,
        bits: &[BitName],
        word: Word,
    ) -> Result<Turn, AllocError>
        requires { bits.now ≡ bit_names names.now }
        ensures { IfOk result (λ turn. IsTurn turn (view self.new) (net_name names.now (view self.old) word)) }
    {
        match word {
            Word::Name(name) => {
                let said = self.net(name);
                if let Some(cause) = self.net_cause(names, bits, name, said) {
                    return Ok(Turn::Refused(cause));
                }
                self.declare_net(name, said)?;
                Ok(Turn::To(ParserState::NetNext))
            }
            Word::Misnamed => Ok(Turn::Refused(Cause::BadName)),
            other => Ok(Turn::Refused(misfit(other))),
        }
    }

    /// Behind one of a list: another one, or its end.
    pub fn list_next(&self, more: ParserState, word: Word) -> Turn
        ensures { IsTurn result (view self.now) (list_next more (view self.now) word) }
    {
        match word {
            Word::Comma => Turn::To(more),
            Word::Semicolon => Turn::To(ParserState::Items),
            other => Turn::Refused(misfit(other)),
        }
    }
}
