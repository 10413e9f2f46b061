//! What modules and their headers do with a word, in each state of the parser.

ghost use Rattle.std.specs.Prelude.{◌≡◌, IfOk};
ghost use Rattle.vtext.specs.Bits.{bit_names};
ghost use Rattle.vtext.specs.kept.Readings.{view};
ghost use Rattle.vtext.specs.Turns.{header, header_end, inline_kind, inline_more, inline_name, inline_next, inline_start, module_head, module_name, older_name, older_next, outside};
ghost use Rattle.vtext.specs.kept.Turns.{IsTurn};

use crate::bits::BitName;
use crate::cause::Cause;
use crate::causes::misfit;
use crate::draft::{Declaration, Draft};
use crate::names::Names;
use crate::parser_state::{Declared, ParserState};
use crate::turn::Turn;
use crate::word::Word;
use std::alloc::AllocError;

impl Draft {
    /// Outside modules.
    pub fn outside(&mut self, start: u32, word: Word) -> Turn
        ensures { IsTurn result (view self.new) (outside (view self.old) start word) }
    {
        match word {
            Word::Timescale(unit) => {
                self.unit = Some(unit);
                Turn::To(ParserState::Outside)
            }
            Word::Module => {
                self.module.start = start;
                Turn::To(ParserState::ModuleName)
            }
            other => Turn::Refused(misfit(other)),
        }
    }

    /// Behind `module`.
    pub fn module_name(&mut self, word: Word) -> Turn
        ensures { IsTurn result (view self.new) (module_name (view self.old) word) }
    {
        match word {
            Word::Name(name) => {
                if let Some(cause) = self.module_cause(name) {
                    return Turn::Refused(cause);
                }
                self.module.name = name;
                Turn::To(ParserState::ModuleHead)
            }
            Word::Misnamed => Turn::Refused(Cause::BadName),
            other => Turn::Refused(misfit(other)),
        }
    }

    /// Behind a module's name.
    pub fn module_head(&self, word: Word) -> Turn
        ensures { IsTurn result (view self.now) (module_head (view self.now) word) }
    {
        match word {
            Word::Open => Turn::To(ParserState::Header),
            Word::Semicolon => Turn::To(ParserState::Items),
            other => Turn::Refused(misfit(other)),
        }
    }

    /// Behind the `(` of a header.
    pub fn header(&mut self, word: Word) -> Result<Turn, AllocError>
        ensures { IfOk result (λ turn. IsTurn turn (view self.new) (header (view self.old) word)) }
    {
        match word {
            Word::PortWord(direction) => {
                self.module.inline = true;
                self.declaration = Declaration {
                    direction,
                    kind: None,
                    range: None,
                };
                Ok(Turn::To(ParserState::InlineStart))
            }
            Word::Close => Ok(Turn::To(ParserState::HeaderEnd)),
            other => self.older_name(other),
        }
    }

    /// Behind a comma in the older form.
    pub fn older_name(&mut self, word: Word) -> Result<Turn, AllocError>
        ensures { IfOk result (λ turn. IsTurn turn (view self.new) (older_name (view self.old) word)) }
    {
        match word {
            Word::Name(name) => {
                if let Some(cause) = self.header_cause(name) {
                    return Ok(Turn::Refused(cause));
                }
                self.list_port(name)?;
                Ok(Turn::To(ParserState::OlderNext))
            }
            Word::Misnamed => Ok(Turn::Refused(Cause::BadName)),
            other => Ok(Turn::Refused(misfit(other))),
        }
    }

    /// Behind a port's name in the older form.
    pub fn older_next(&self, word: Word) -> Turn
        ensures { IsTurn result (view self.now) (older_next (view self.now) word) }
    {
        match word {
            Word::Comma => Turn::To(ParserState::OlderName),
            Word::Close => Turn::To(ParserState::HeaderEnd),
            other => Turn::Refused(misfit(other)),
        }
    }

    /// Behind a direction in the inline form.
    pub fn inline_start(
        &mut self,
        names: &Names,
        bits: &[BitName],
        word: Word,
    ) -> Result<Turn, AllocError>
        requires { bits.now ≡ bit_names names.now }
        ensures { IfOk result (λ turn. IsTurn turn (view self.new) (inline_start names.now (view self.old) word)) }
    {
        match word {
            Word::NetWord(kind) => {
                self.declaration.kind = Some(kind);
                Ok(Turn::To(ParserState::InlineKind))
            }
            other => self.inline_kind(names, bits, other),
        }
    }

    /// Behind a net kind in the inline form, or a direction without one.
    pub fn inline_kind(
        &mut self,
        names: &Names,
        bits: &[BitName],
        word: Word,
    ) -> Result<Turn, AllocError>
        requires { bits.now ≡ bit_names names.now }
        ensures { IfOk result (λ turn. IsTurn turn (view self.new) (inline_kind names.now (view self.old) word)) }
    {
        match word {
            Word::OpenBracket => Ok(Turn::To(ParserState::LeftBound(Declared::InlinePort))),
            other => self.inline_name(names, bits, other),
        }
    }

    /// Behind a range in the inline form, or where none is written.
    #[inline(always)]
    pub fn inline_name(
        &mut self,
        names: &Names,
        bits: &[BitName],
        word: Word,
    ) -> Result<Turn, AllocError>
        requires { bits.now ≡ bit_names names.now }
        ensures { IfOk result (λ turn. IsTurn turn (view self.new) (inline_name names.now (view self.old) word)) }
    {
        match word {
            Word::Name(name) => {
                if let Some(cause) = self.inline_cause(names, bits, name) {
                    return Ok(Turn::Refused(cause));
                }
                self.declare_port(name)?;
                Ok(Turn::To(ParserState::InlineNext))
            }
            Word::Misnamed => Ok(Turn::Refused(Cause::BadName)),
            other => Ok(Turn::Refused(misfit(other))),
        }
    }

    /// Behind a port's name in the inline form.
    pub fn inline_next(&self, word: Word) -> Turn
        ensures { IsTurn result (view self.now) (inline_next (view self.now) word) }
    {
        match word {
            Word::Comma => Turn::To(ParserState::InlineMore),
            Word::Close => Turn::To(ParserState::HeaderEnd),
            other => Turn::Refused(misfit(other)),
        }
    }

    /// Behind a comma in the inline form.
    pub fn inline_more(
        &mut self,
        names: &Names,
        bits: &[BitName],
        word: Word,
    ) -> Result<Turn, AllocError>
        requires { bits.now ≡ bit_names names.now }
        ensures { IfOk result (λ turn. IsTurn turn (view self.new) (inline_more names.now (view self.old) word)) }
    {
        match word {
            Word::PortWord(direction) => {
                self.declaration = Declaration {
                    direction,
                    kind: None,
                    range: None,
                };
                Ok(Turn::To(ParserState::InlineStart))
            }
            other => self.inline_name(names, bits, other),
        }
    }

    /// Behind the `)` of a header.
    pub fn header_end(&self, word: Word) -> Turn
        ensures { IsTurn result (view self.now) (header_end (view self.now) word) }
    {
        match word {
            Word::Semicolon => Turn::To(ParserState::Items),
            other => Turn::Refused(misfit(other)),
        }
    }
}
