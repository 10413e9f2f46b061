//! The word at fault of an edit that a design refuses.

ghost use Rattle.std.specs.Prelude.{◌≡◌, decimal, find, option_map};
ghost use Rattle.std.specs.Option.{option_copied};
ghost use Rattle.design.specs.Keys.{netlist};
ghost use Rattle.session.specs.WordsAtFault.{added_word, delays_in, edit_word, is_unknown, kind_word, large_delay, moment_in, off_word, output_in, pin_name, subject, unknown_among, unknown_net};
ghost use Rattle.session.specs.kept.WordsAtFault.{shown};

use crate::at_fault::fault_word::FaultWord;
use design::Design;
use edits::{Edit, EditFault, Pin, Word};
use fourstate::{DelayTimes, MAX_DELAY};

/// The word at fault of an edit that the design refuses for this fault. It takes no memory.
pub fn edit_word<'e>(design: &Design, edit: &'e Edit, fault: EditFault) -> Option<FaultWord<'e>>
    ensures { option_map shown result ≡ edit_word (netlist design.now) edit.now fault }
{
    match fault {
        EditFault::UnknownNet => text(unknown_net(design, edit)),
        EditFault::UnknownGate
        | EditFault::DuplicateName
        | EditFault::BadName
        | EditFault::NotInput
        | EditFault::NetInUse => text(subject(edit)),
        EditFault::ZeroDelay => Some(FaultWord::Number(0)),
        EditFault::DelayTooLarge => number(large_delay(delays_in(edit)?)),
        EditFault::WrongArity => text(kind_word(edit)),
        EditFault::DrivenInput => text(output_in(edit)),
        EditFault::TimeTooLarge | EditFault::NoSuchPoint => number(moment_in(edit)),
        EditFault::TooMany => added_word(edit),
        EditFault::OutOfMemory => None,
        EditFault::NoTurnOff => off_word(edit),
    }
}

fn text(word: Option<&str>) -> Option<FaultWord<'_>>
    ensures { option_map shown result ≡ option_copied word.entry }
{
    let word = word?;
    Some(FaultWord::Text(word.as_bytes()))
}

fn number(n: Option<u64>) -> Option<FaultWord<'static>>
    ensures { option_map shown result ≡ option_map decimal n }
{
    Some(FaultWord::Number(n?))
}

// The net or gate that an edit is about.
fn subject(edit: &Edit) -> Option<&str>
    ensures { option_copied result ≡ subject edit.now }
{
    match edit {
        Edit::AddNet { name, .. }
        | Edit::AddInput { name }
        | Edit::DropNet { name }
        | Edit::SetNetKind { name, .. }
        | Edit::AddGate { name, .. }
        | Edit::DropGate { name }
        | Edit::SetDelay { name, .. }
        | Edit::SetGateKind { name, .. }
        | Edit::Rewire { name, .. } => Some(name.as_str()),
        Edit::Stim { net, .. } | Edit::Unstim { net, .. } => Some(net.as_str()),
        Edit::Horizon { .. } => None,
    }
}

fn unknown_net<'e>(design: &Design, edit: &'e Edit) -> Option<&'e str>
    ensures { option_copied result ≡ unknown_net (netlist design.now) edit.now }
{
    match edit {
        Edit::AddGate { output, inputs, .. } | Edit::Rewire { output, inputs, .. } => {
            unknown_among(design, output, inputs.as_slice())
        }
        _ => subject(edit),
    }
}

// The first of these that names no net.
fn unknown_among<'e>(design: &Design, output: &'e Word, inputs: &'e [Pin]) -> Option<&'e str>
    ensures { option_copied result ≡ unknown_among (netlist design.now) output.now inputs.now }
{
    if design.net(output.as_str()).is_none() {
        return Some(output.as_str());
    }
    match first_unknown(design, inputs) {
        Some(pin) => pin_name(pin),
        None => None,
    }
}

fn first_unknown<'e>(design: &Design, inputs: &'e [Pin]) -> Option<&'e Pin>
    ensures { option_copied result ≡ find (is_unknown (netlist design.now)) inputs.now }
{
    inputs.iter().find(|pin| is_unknown(design, pin))
}

fn is_unknown(design: &Design, pin: &Pin) -> bool
    ensures { result ≡ is_unknown (netlist design.now) pin.now }
{
    match pin {
        Pin::Net(name) => design.net(name.as_str()).is_none(),
        Pin::Constant(_) => false,
    }
}

fn pin_name(pin: &Pin) -> Option<&str>
    ensures { option_copied result ≡ pin_name pin.now }
{
    match pin {
        Pin::Net(name) => Some(name.as_str()),
        Pin::Constant(_) => None,
    }
}

fn delays_in(edit: &Edit) -> Option<DelayTimes>
    ensures { result ≡ delays_in edit.now }
{
    match edit {
        Edit::AddGate { delays, .. } | Edit::SetDelay { delays, .. } => Some(*delays),
        _ => None,
    }
}

// The first of these delays that is over the limit.
fn large_delay(delays: DelayTimes) -> Option<u64>
    ensures { result ≡ large_delay delays }
{
    if delays.rise > MAX_DELAY {
        return Some(delays.rise);
    }
    if delays.fall > MAX_DELAY {
        return Some(delays.fall);
    }
    let off = delays.off?;
    if off > MAX_DELAY { Some(off) } else { None }
}

// The kind of a gate, or the gate where the edit gives no kind.
fn kind_word(edit: &Edit) -> Option<&str>
    ensures { option_copied result ≡ kind_word edit.now }
{
    match edit {
        Edit::AddGate { kind, .. } | Edit::SetGateKind { kind, .. } => Some(kind.keyword()),
        _ => subject(edit),
    }
}

// The turn-off delay, or the kind where the edit gives no delays.
fn off_word(edit: &Edit) -> Option<FaultWord<'_>>
    ensures { option_map shown result ≡ off_word edit.now }
{
    match edit {
        Edit::SetGateKind { kind, .. } => text(Some(kind.keyword())),
        _ => number(delays_in(edit)?.off),
    }
}

fn output_in(edit: &Edit) -> Option<&str>
    ensures { option_copied result ≡ output_in edit.now }
{
    match edit {
        Edit::AddGate { output, .. } | Edit::Rewire { output, .. } => Some(output.as_str()),
        _ => None,
    }
}

fn moment_in(edit: &Edit) -> Option<u64>
    ensures { result ≡ moment_in edit.now }
{
    match edit {
        Edit::Stim { time, .. } | Edit::Unstim { time, .. } | Edit::Horizon { time } => Some(*time),
        _ => None,
    }
}

// What the edit adds: a point by its moment, a net or gate by its name.
fn added_word(edit: &Edit) -> Option<FaultWord<'_>>
    ensures { option_map shown result ≡ added_word edit.now }
{
    match edit {
        Edit::Stim { time, .. } => Some(FaultWord::Number(*time)),
        _ => text(subject(edit)),
    }
}
