//! An edit as a line writes it.

ghost use Rattle.std.specs.Prelude.{◌≡◌, IfOk, is_err, true};
ghost use Rattle.session.specs.EditLines.{edit_line_of, edit_of};
ghost use Rattle.session.specs.kept.LineReadings.{has_words};

use crate::commands::gate::{read_gate, read_wire};
use crate::commands::gates::{read_delay, read_drop, read_type};
use crate::commands::nets::{read_drop_net, read_input, read_kind, read_net};
use crate::commands::pins::PinWords;
use crate::commands::times::{read_horizon, read_stim, read_unstim};
use crate::commands::verb::EditVerb;
use crate::words::{WordRef, Words};
use edits::{Edit, Word};
use fourstate::{DelayTimes, GateKind, NetKind, Value};
use std::alloc::{AllocError, Global};

/// An edit, with words that it borrows from its line.
#[derive(Drop)]
pub enum EditLine<'a> {
    AddNet {
        name: WordRef<'a>,
        kind: NetKind,
    },
    AddInput {
        name: WordRef<'a>,
    },
    DropNet {
        name: WordRef<'a>,
    },
    SetNetKind {
        name: WordRef<'a>,
        kind: NetKind,
    },
    AddGate {
        name: WordRef<'a>,
        kind: GateKind,
        delays: DelayTimes,
        output: WordRef<'a>,
        inputs: PinWords<'a>,
    },
    DropGate {
        name: WordRef<'a>,
    },
    SetDelay {
        name: WordRef<'a>,
        delays: DelayTimes,
    },
    SetGateKind {
        name: WordRef<'a>,
        kind: GateKind,
    },
    Rewire {
        name: WordRef<'a>,
        output: WordRef<'a>,
        inputs: PinWords<'a>,
    },
    Stim {
        net: WordRef<'a>,
        time: u64,
        value: Value,
    },
    Unstim {
        net: WordRef<'a>,
        time: u64,
    },
    Horizon {
        time: u64,
    },
}

impl EditLine<'_> {
    /// The edit with words of its own.
    pub fn to_edit(&self, alloc: Global) -> Result<Edit, AllocError>
        ensures edit { IfOk result (λ edit. edit ≡ edit_of self.now) }
        ensures words { is_err result ≡ true → has_words self.now ≡ true }
    {
        match self {
            EditLine::AddNet { name, kind } => {
                let name = own(alloc, name)?;
                Ok(Edit::AddNet { name, kind: *kind })
            }
            EditLine::AddInput { name } => {
                let name = own(alloc, name)?;
                Ok(Edit::AddInput { name })
            }
            EditLine::DropNet { name } => {
                let name = own(alloc, name)?;
                Ok(Edit::DropNet { name })
            }
            EditLine::SetNetKind { name, kind } => {
                let name = own(alloc, name)?;
                Ok(Edit::SetNetKind { name, kind: *kind })
            }
            EditLine::AddGate {
                name,
                kind,
                delays,
                output,
                inputs,
            } => {
                let name = own(alloc, name)?;
                let output = own(alloc, output)?;
                let inputs = inputs.to_pins(alloc)?;
                Ok(Edit::AddGate {
                    name,
                    kind: *kind,
                    delays: *delays,
                    output,
                    inputs,
                })
            }
            EditLine::DropGate { name } => {
                let name = own(alloc, name)?;
                Ok(Edit::DropGate { name })
            }
            EditLine::SetDelay { name, delays } => {
                let name = own(alloc, name)?;
                Ok(Edit::SetDelay {
                    name,
                    delays: *delays,
                })
            }
            EditLine::SetGateKind { name, kind } => {
                let name = own(alloc, name)?;
                Ok(Edit::SetGateKind { name, kind: *kind })
            }
            EditLine::Rewire {
                name,
                output,
                inputs,
            } => {
                let name = own(alloc, name)?;
                let output = own(alloc, output)?;
                let inputs = inputs.to_pins(alloc)?;
                Ok(Edit::Rewire {
                    name,
                    output,
                    inputs,
                })
            }
            EditLine::Stim { net, time, value } => {
                let net = own(alloc, net)?;
                Ok(Edit::Stim {
                    net,
                    time: *time,
                    value: *value,
                })
            }
            EditLine::Unstim { net, time } => {
                let net = own(alloc, net)?;
                Ok(Edit::Unstim { net, time: *time })
            }
            EditLine::Horizon { time } => Ok(Edit::Horizon { time: *time }),
        }
    }
}

fn own(alloc: Global, word: &WordRef<'_>) -> Result<Word, AllocError>
    ensures { IfOk result (λ own. own ≡ word.now) }
{
    Word::new(alloc, word.as_str())
}

/// The edit that a verb writes with the words behind it; none where these are unreadable.
pub fn read_edit(verb: EditVerb, words: Words<'_>) -> Option<EditLine<'_>>
    ensures { result ≡ edit_line_of verb words.entry }
{
    match verb {
        EditVerb::Net => read_net(words),
        EditVerb::Input => read_input(words),
        EditVerb::DropNet => read_drop_net(words),
        EditVerb::Kind => read_kind(words),
        EditVerb::Gate => read_gate(words),
        EditVerb::Drop => read_drop(words),
        EditVerb::Delay => read_delay(words),
        EditVerb::Type => read_type(words),
        EditVerb::Wire => read_wire(words),
        EditVerb::Stim => read_stim(words),
        EditVerb::Unstim => read_unstim(words),
        EditVerb::Horizon => read_horizon(words),
    }
}
