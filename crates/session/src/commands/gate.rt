//! The commands that connect gates: `gate` and `wire`. Each is read behind its first word; none where the words are
//! unreadable.

ghost use Rattle.std.specs.Prelude.{◌≡◌};
ghost use Rattle.session.specs.EditLines.{gate_edit, nets_of, wire_edit};

use crate::commands::edit_line::EditLine;
use crate::commands::pins::PinWords;
use crate::commands::times::take_delays;
use crate::words::{WordRef, Words};
use fourstate::GateKind;

/// `gate G KIND R F OUT IN..`, or `F/Z` in place of `F`.
pub fn read_gate(words: Words<'_>) -> Option<EditLine<'_>>
    ensures { result ≡ gate_edit words.entry }
{
    let mut rest = words;
    let name = rest.next()?;
    let kind = GateKind::from_keyword(rest.next()?.as_bytes())?;
    let delays = take_delays(&mut rest)?;
    let (output, inputs) = read_nets(rest)?;
    Some(EditLine::AddGate {
        name,
        kind,
        delays,
        output,
        inputs,
    })
}

/// `wire G OUT IN..`.
pub fn read_wire(words: Words<'_>) -> Option<EditLine<'_>>
    ensures { result ≡ wire_edit words.entry }
{
    let mut rest = words;
    let name = rest.next()?;
    let (output, inputs) = read_nets(rest)?;
    Some(EditLine::Rewire {
        name,
        output,
        inputs,
    })
}

// `OUT IN..`: what a gate drives and reads.
fn read_nets(words: Words<'_>) -> Option<(WordRef<'_>, PinWords<'_>)>
    ensures { result ≡ nets_of words.entry }
{
    let mut rest = words;
    let output = rest.next()?;
    let inputs = PinWords::new(rest)?;
    Some((output, inputs))
}
