//! How many gates are dirty and stirred beside a former run, counted gate by gate and moment by moment.

use super::plain::Row;
use arrayvec::ArrayVec;
use design::{Design, Gate, NetKey, Terminal};
use fourstate::{MAX_INPUTS, Value};
use gatestep::Driver;
use std::process::Abort;

/// A design with what stands at each moment of its run.
#[derive(Clone, Copy)]
pub struct Side<'a> {
    pub design: &'a Design,
    pub rows: &'a [Row],
}

fn name_of<'a>(rt: &impl Abort, design: &'a Design, net: NetKey) -> &'a str {
    assert!(rt; design.net_place_of(net).is_some());
    design.name_of(net).as_str()
}

fn same_terminal(
    rt: &impl Abort,
    old: &Design,
    former: Terminal,
    new: &Design,
    terminal: Terminal,
) -> bool {
    match former {
        Terminal::Net(before) => match terminal {
            Terminal::Net(net) => name_of(rt, old, before) == name_of(rt, new, net),
            Terminal::Constant(_) => false,
        },
        Terminal::Constant(before) => match terminal {
            Terminal::Net(_) => false,
            Terminal::Constant(value) => before == value,
        },
    }
}

fn same_terminals(rt: &impl Abort, old: &Design, former: &Gate, new: &Design, gate: &Gate) -> bool {
    if former.inputs().len() != gate.inputs().len() {
        return false;
    }
    for (a, b) in former.inputs().iter().zip(gate.inputs()) {
        if !same_terminal(rt, old, *a, new, *b) {
            return false;
        }
    }
    true
}

/// Whether both gates have the same name, kind, delays, output and inputs.
fn same_gate(rt: &impl Abort, old: &Design, former: &Gate, new: &Design, gate: &Gate) -> bool {
    former.name().as_str() == gate.name().as_str()
        && former.kind() == gate.kind()
        && former.delays() == gate.delays()
        && name_of(rt, old, former.output()) == name_of(rt, new, gate.output())
        && same_terminals(rt, old, former, new, gate)
}

/// The place of the same gate in the old design.
fn former_place(rt: &impl Abort, old: &Design, new: &Design, gate: &Gate) -> Option<usize> {
    for place in 0..old.gate_count() {
        if same_gate(rt, old, old.gate_at(place), new, gate) {
            return Some(place);
        }
    }
    None
}

fn row_at<'a>(rt: &impl Abort, rows: &'a [Row], t: u64) -> &'a Row {
    rows.get(t as usize).expect(rt, "a row of the moment")
}

fn read<'a>(rt: &impl Abort, row: &'a Row, place: usize) -> &'a ArrayVec<Value, MAX_INPUTS> {
    row.inputs.get(place).expect(rt, "what the gate reads")
}

fn state(rt: &impl Abort, row: &Row, place: usize) -> Driver {
    *row.before.get(place).expect(rt, "the state of the gate")
}

/// Whether a gate differs from the old run at the moment `t`.
fn is_dirty(rt: &impl Abort, old: Side<'_>, new: Side<'_>, place: usize, t: u64) -> bool {
    if t > old.design.horizon() {
        return true;
    }
    assert!(rt; place < new.design.gate_count());
    let gate = new.design.gate_at(place);
    let Some(former) = former_place(rt, old.design, new.design, gate) else {
        return true;
    };
    let (then, now) = (row_at(rt, old.rows, t), row_at(rt, new.rows, t));
    state(rt, then, former) != state(rt, now, place)
        || read(rt, then, former) != read(rt, now, place)
}

/// Whether something happens to a gate at the moment `t`.
fn is_stirred(rt: &impl Abort, new: Side<'_>, place: usize, t: u64) -> bool {
    if t == 0 {
        return true;
    }
    let (before, now) = (row_at(rt, new.rows, t - 1), row_at(rt, new.rows, t));
    let is_due = match state(rt, now, place).pending() {
        None => false,
        Some((_, due)) => due <= t,
    };
    is_due || read(rt, before, place) != read(rt, now, place)
}

/// How many pairs of a gate and a moment are dirty and stirred.
pub fn count(rt: &impl Abort, old: Side<'_>, new: Side<'_>) -> u64 {
    let mut count = 0_u64;
    for t in 0..=new.design.horizon() {
        for place in 0..new.design.gate_count() {
            if is_dirty(rt, old, new, place, t) && is_stirred(rt, new, place, t) {
                count = count.saturating_add(1);
            }
        }
    }
    count
}
