//! One word more, in any state of the parser.

ghost use Rattle.std.specs.Prelude.{◌≡◌, ◌<◌, ◌-◌, ◌^◌, IfOk};
ghost use Rattle.vtext.specs.Bits.{bit_names};
ghost use Rattle.vtext.specs.kept.Readings.{view};
ghost use Rattle.vtext.specs.Turns.{turn};
ghost use Rattle.vtext.specs.kept.Turns.{IsTurn};

use crate::bits::BitName;
use crate::draft::Draft;
use crate::names::Names;
use crate::parser_state::{DelayNumber, ParserState};
use crate::turn::Turn;
use crate::word::{Placed, Word};
use std::alloc::{AllocError, Global};

/// A word, and the one behind it, if there is one.
#[derive(Clone, Copy)]
pub struct Lookahead {
    pub next: Placed,
    pub after: Option<Word>,
}

impl Draft {
    /// Reads one word more in a state of the parser.
    pub fn turn(
        &mut self,
        alloc: Global,
        default: Option<u32>,
        names: &Names,
        bits: &[BitName],
        state: ParserState,
        ahead: Lookahead,
    ) -> Result<Turn, AllocError>
        requires room { (view self.old).unnamed < 2 ^ 64 - 1 }
        requires bits { bits.now ≡ bit_names names.now }
        ensures { IfOk result (λ made. IsTurn made (view self.new) (turn default names.now (view self.old) state ahead.next ahead.after)) }
    {
        let Lookahead { next, after } = ahead;
        match state {
            ParserState::Outside => Ok(self.outside(next.start, next.word)),
            ParserState::ModuleName => Ok(self.module_name(next.word)),
            ParserState::ModuleHead => Ok(self.module_head(next.word)),
            ParserState::Header => self.header(next.word),
            ParserState::OlderNext => Ok(self.older_next(next.word)),
            ParserState::OlderName => self.older_name(next.word),
            ParserState::InlineStart => self.inline_start(names, bits, next.word),
            ParserState::InlineKind => self.inline_kind(names, bits, next.word),
            ParserState::InlineName => self.inline_name(names, bits, next.word),
            ParserState::InlineNext => Ok(self.inline_next(next.word)),
            ParserState::InlineMore => self.inline_more(names, bits, next.word),
            ParserState::HeaderEnd => Ok(self.header_end(next.word)),
            ParserState::Items => self.items(alloc, default, next.word, after),
            ParserState::PortStart => self.port_start(names, bits, next.word),
            ParserState::PortKind => self.port_kind(names, bits, next.word),
            ParserState::PortName => self.port_name(names, bits, next.word),
            ParserState::PortNext => Ok(self.list_next(ParserState::PortName, next.word)),
            ParserState::NetStart => self.net_start(names, bits, next.word),
            ParserState::NetName => self.net_name(names, bits, next.word),
            ParserState::NetNext => Ok(self.list_next(ParserState::NetName, next.word)),
            ParserState::LeftBound(of) => Ok(self.left_bound(of, next.word)),
            ParserState::BoundColon(of) => Ok(self.bound_colon(of, next.word)),
            ParserState::RightBound(of) => Ok(self.right_bound(of, next.word)),
            ParserState::RangeEnd(of) => Ok(self.range_end(of, next.word)),
            ParserState::GateStart => self.gate_start(next.word),
            ParserState::Delay => Ok(self.delay(next.word)),
            ParserState::RiseDelay => {
                Ok(self.delay_number(DelayNumber::Rise, ParserState::RiseEnd, next.word))
            }
            ParserState::RiseEnd => Ok(self.rise_end(next.word)),
            ParserState::FallDelay => {
                Ok(self.delay_number(DelayNumber::Fall, ParserState::FallEnd, next.word))
            }
            ParserState::FallEnd => Ok(self.fall_end(next.word)),
            ParserState::OffDelay => {
                Ok(self.delay_number(DelayNumber::Off, ParserState::OffEnd, next.word))
            }
            ParserState::OffEnd => Ok(self.off_end(next.word)),
            ParserState::InstanceStart => self.instance_start(next.word),
            ParserState::InstanceOpen => Ok(self.instance_open(next.word)),
            ParserState::TerminalStart => self.terminal_start(names, next.word, after),
            ParserState::TerminalEnd => self.terminal_end(alloc, names, next.word),
            ParserState::IndexStart(of) => Ok(self.index_start(of, next.word)),
            ParserState::Index(of) => self.index(of, next.word),
            ParserState::IndexEnd(of) => Ok(self.index_end(of, next.word)),
            ParserState::InstanceEnd => Ok(self.list_next(ParserState::InstanceStart, next.word)),
            ParserState::ModuleInstanceName => self.module_instance_name(next.start, next.word),
            ParserState::ModuleInstanceOpen => Ok(self.module_instance_open(next.word)),
            ParserState::Connections => self.connections(alloc, names, next.word, after),
            ParserState::OrderedStart => self.ordered_start(alloc, names, next.word, after),
            ParserState::OrderedEnd => self.ordered_end(alloc, next.word),
            ParserState::NamedStart => Ok(self.named_start(next.word)),
            ParserState::NamedPort => Ok(self.named_port(next.word)),
            ParserState::NamedOpen => Ok(self.named_open(next.word)),
            ParserState::NamedTerminal => self.named_terminal(names, next.word, after),
            ParserState::NamedClose => Ok(self.named_close(next.word)),
            ParserState::NamedEnd => self.named_end(alloc, next.word),
            ParserState::ModuleInstanceEnd => {
                Ok(self.list_next(ParserState::ModuleInstanceName, next.word))
            }
        }
    }
}
