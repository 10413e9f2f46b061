//! What items that instantiate modules do with a word, in each state of the parser.

ghost use Rattle.std.specs.Prelude.{IfOk};
ghost use Rattle.vtext.specs.kept.Readings.{view};
ghost use Rattle.vtext.specs.Turns.{connected, connections, module_instance_name, module_instance_open, named_close, named_end, named_open, named_port, named_start, named_terminal, ordered_end, ordered_start, plain_connection};
ghost use Rattle.vtext.specs.kept.Turns.{IsTurn};

use crate::cause::Cause;
use crate::causes::{is_index, misfit};
use crate::draft::Draft;
use crate::gate::Terminal;
use crate::indexes::behind;
use crate::names::Names;
use crate::parser_state::{Indexed, ParserState};
use crate::turn::Turn;
use crate::word::Word;
use std::alloc::{AllocError, Global};

impl Draft {
    /// Where the name of an instance of a module is wanted.
    pub fn module_instance_name(&mut self, start: u32, word: Word) -> Result<Turn, AllocError>
        ensures { IfOk result (λ turn. IsTurn turn (view self.new) (module_instance_name (view self.old) start word)) }
    {
        match word {
            Word::Name(name) => {
                if let Some(cause) = self.instance_cause(name) {
                    return Ok(Turn::Refused(cause));
                }
                self.name_module_instance(start, name)?;
                Ok(Turn::To(ParserState::ModuleInstanceOpen))
            }
            Word::Misnamed => Ok(Turn::Refused(Cause::BadName)),
            other => Ok(Turn::Refused(misfit(other))),
        }
    }

    /// Behind the name of an instance of a module.
    pub fn module_instance_open(&self, word: Word) -> Turn
        ensures { IsTurn result (view self.now) (module_instance_open (view self.now) word) }
    {
        match word {
            Word::Open => Turn::To(ParserState::Connections),
            other => Turn::Refused(misfit(other)),
        }
    }

    /// A net is named that a port is connected to, without an index.
    fn plain_connection(
        &mut self,
        of: Indexed,
        names: &Names,
        name: u32,
    ) -> Result<Turn, AllocError>
        ensures { IfOk result (λ turn. IsTurn turn (view self.new) (plain_connection of names.now (view self.old) name)) }
    {
        let said = self.net(name);
        if let Some(cause) = self.use_cause(names, name, said) {
            return Ok(Turn::Refused(cause));
        }
        self.note_net(name, said)?;
        self.add_connection(Some(Terminal::Net(name)))?;
        Ok(Turn::To(behind(of)))
    }

    /// Where a port may be connected.
    fn connected(
        &mut self,
        of: Indexed,
        names: &Names,
        word: Word,
        after: Option<Word>,
    ) -> Result<Turn, AllocError>
        ensures { IfOk result (λ turn. IsTurn turn (view self.new) (connected of names.now (view self.old) word after)) }
    {
        match word {
            Word::Name(name) => {
                if is_index(after) {
                    self.index_name(of, names, name)
                } else {
                    self.plain_connection(of, names, name)
                }
            }
            Word::Misnamed => Ok(Turn::Refused(Cause::BadName)),
            Word::Literal(value) => {
                self.add_connection(Some(Terminal::Constant(value)))?;
                Ok(Turn::To(behind(of)))
            }
            other => Ok(Turn::Refused(misfit(other))),
        }
    }

    /// Behind the `(` of port connections.
    pub fn connections(
        &mut self,
        alloc: Global,
        names: &Names,
        word: Word,
        after: Option<Word>,
    ) -> Result<Turn, AllocError>
        ensures { IfOk result (λ turn. IsTurn turn (view self.new) (connections names.now (view self.old) word after)) }
    {
        match word {
            Word::Close => {
                self.instantiate(alloc)?;
                Ok(Turn::To(ParserState::ModuleInstanceEnd))
            }
            Word::Dot => Ok(Turn::To(ParserState::NamedPort)),
            Word::Comma => {
                self.add_connection(None)?;
                Ok(Turn::To(ParserState::OrderedStart))
            }
            other => self.connected(Indexed::Ordered, names, other, after),
        }
    }

    /// Behind a comma of connections by order.
    pub fn ordered_start(
        &mut self,
        alloc: Global,
        names: &Names,
        word: Word,
        after: Option<Word>,
    ) -> Result<Turn, AllocError>
        ensures { IfOk result (λ turn. IsTurn turn (view self.new) (ordered_start names.now (view self.old) word after)) }
    {
        match word {
            Word::Comma => {
                self.add_connection(None)?;
                Ok(Turn::To(ParserState::OrderedStart))
            }
            Word::Close => {
                self.add_connection(None)?;
                self.instantiate(alloc)?;
                Ok(Turn::To(ParserState::ModuleInstanceEnd))
            }
            other => self.connected(Indexed::Ordered, names, other, after),
        }
    }

    /// Behind a connection by order.
    pub fn ordered_end(&mut self, alloc: Global, word: Word) -> Result<Turn, AllocError>
        ensures { IfOk result (λ turn. IsTurn turn (view self.new) (ordered_end (view self.old) word)) }
    {
        match word {
            Word::Comma => Ok(Turn::To(ParserState::OrderedStart)),
            Word::Close => {
                self.instantiate(alloc)?;
                Ok(Turn::To(ParserState::ModuleInstanceEnd))
            }
            other => Ok(Turn::Refused(misfit(other))),
        }
    }

    /// Behind a comma of connections by name.
    pub fn named_start(&self, word: Word) -> Turn
        ensures { IsTurn result (view self.now) (named_start (view self.now) word) }
    {
        match word {
            Word::Dot => Turn::To(ParserState::NamedPort),
            other => Turn::Refused(misfit(other)),
        }
    }

    /// Behind the `.` of a connection by name.
    pub fn named_port(&mut self, word: Word) -> Turn
        ensures { IsTurn result (view self.new) (named_port (view self.old) word) }
    {
        match word {
            Word::Name(name) => {
                self.module_instance.port = Some(name);
                Turn::To(ParserState::NamedOpen)
            }
            Word::Misnamed => Turn::Refused(Cause::BadName),
            other => Turn::Refused(misfit(other)),
        }
    }

    /// Behind the port of a connection by name.
    pub fn named_open(&self, word: Word) -> Turn
        ensures { IsTurn result (view self.now) (named_open (view self.now) word) }
    {
        match word {
            Word::Open => Turn::To(ParserState::NamedTerminal),
            other => Turn::Refused(misfit(other)),
        }
    }

    /// Behind the `(` of a connection by name.
    pub fn named_terminal(
        &mut self,
        names: &Names,
        word: Word,
        after: Option<Word>,
    ) -> Result<Turn, AllocError>
        ensures { IfOk result (λ turn. IsTurn turn (view self.new) (named_terminal names.now (view self.old) word after)) }
    {
        match word {
            Word::Close => {
                self.add_connection(None)?;
                Ok(Turn::To(ParserState::NamedEnd))
            }
            other => self.connected(Indexed::Named, names, other, after),
        }
    }

    /// Behind the terminal of a connection by name.
    pub fn named_close(&self, word: Word) -> Turn
        ensures { IsTurn result (view self.now) (named_close (view self.now) word) }
    {
        match word {
            Word::Close => Turn::To(ParserState::NamedEnd),
            other => Turn::Refused(misfit(other)),
        }
    }

    /// Behind a connection by name.
    pub fn named_end(&mut self, alloc: Global, word: Word) -> Result<Turn, AllocError>
        ensures { IfOk result (λ turn. IsTurn turn (view self.new) (named_end (view self.old) word)) }
    {
        match word {
            Word::Comma => Ok(Turn::To(ParserState::NamedStart)),
            Word::Close => {
                self.instantiate(alloc)?;
                Ok(Turn::To(ParserState::ModuleInstanceEnd))
            }
            other => Ok(Turn::Refused(misfit(other))),
        }
    }
}
