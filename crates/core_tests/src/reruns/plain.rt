//! The reference implementation: the value of each net and the state of each gate at each moment; nothing is skipped, and nothing is
//! taken from another run.

use arrayvec::ArrayVec;
use design::{Design, Gate, Terminal};
use fourstate::{Inputs, MAX_INPUTS, MAX_TIME, Value, resolve};
use gatestep::{Driver, Task, next};
use std::alloc::Global;
use std::process::Abort;

/// What stands at one moment, by the places of nets and gates.
#[derive(Drop)]
pub struct Row {
    /// The values of the nets.
    pub values: Vec<Value>,
    /// The states of the gates before the moment.
    pub before: Vec<Driver>,
    /// What each gate reads.
    pub inputs: Vec<ArrayVec<Value, MAX_INPUTS>>,
}

fn get<T: Copy>(rt: &impl Abort, list: &[T], place: usize) -> T {
    *list.get(place).expect(rt, "a place of the list")
}

/// The value of the net at a place, where the gates are in these states.
fn net_value(
    rt: &impl Abort,
    alloc: Global,
    design: &Design,
    states: &[Driver],
    place: usize,
    t: u64,
) -> Value {
    assert!(rt; place < design.net_count());
    let net = design.net_at(place);
    if net.is_input() {
        return net.stimulus_at(t);
    }
    let mut driven = Vec::new(alloc);
    for place in 0..states.len() {
        assert!(rt; place < design.gate_count());
        let gate = design.gate_at(place);
        if design.name_of(gate.output()).as_str() == net.name().as_str() {
            let value = states[place].due(t).current();
            driven.push(value).expect(rt, "one value more");
        }
    }
    resolve(net.kind(), driven.as_slice())
}

fn input_value(rt: &impl Abort, design: &Design, values: &[Value], terminal: Terminal) -> Value {
    match terminal {
        Terminal::Constant(value) => value,
        Terminal::Net(net) => {
            let place = design.net_place_of(net).expect(rt, "a place of the net");
            get(rt, values, place)
        }
    }
}

fn inputs_of(
    rt: &impl Abort,
    design: &Design,
    values: &[Value],
    gate: &Gate,
) -> ArrayVec<Value, MAX_INPUTS> {
    let mut read = ArrayVec::new();
    for terminal in gate.inputs() {
        let value = input_value(rt, design, values, *terminal);
        assert!(rt; read.try_push(value).is_ok());
    }
    read
}

/// What stands at the moment `t`, where the gates were in these states.
fn stand(rt: &impl Abort, alloc: Global, design: &Design, before: Vec<Driver>, t: u64) -> Row {
    let mut values = Vec::new(alloc);
    for place in 0..design.net_count() {
        let value = net_value(rt, alloc, design, before.as_slice(), place, t);
        values.push(value).expect(rt, "one value more");
    }
    let mut inputs = Vec::new(alloc);
    for place in 0..design.gate_count() {
        let read = inputs_of(rt, design, values.as_slice(), design.gate_at(place));
        inputs.push(read).expect(rt, "one gate more");
    }
    Row {
        values,
        before,
        inputs,
    }
}

/// The state of a gate after the moment `t`.
fn after(
    rt: &impl Abort,
    gate: &Gate,
    state: Driver,
    read: ArrayVec<Value, MAX_INPUTS>,
    t: u64,
) -> Driver {
    assert!(rt; t <= MAX_TIME);
    if let Some((_, due)) = state.pending() {
        assert!(rt; t <= due);
    }
    assert!(rt; read.len() == gate.inputs().len());
    let inputs = Inputs::of(read.as_slice());
    let task = Task::new(gate.kind(), gate.delays(), state, inputs);
    next(&task, t)
}

/// The states of the gates after the moment `t`, at which this stood.
fn states_after(rt: &impl Abort, alloc: Global, design: &Design, row: &Row, t: u64) -> Vec<Driver> {
    let mut states = Vec::new(alloc);
    for place in 0..design.gate_count() {
        let gate = design.gate_at(place);
        let state = get(rt, row.before.as_slice(), place);
        let read = inputs_of(rt, design, row.values.as_slice(), gate);
        let state = after(rt, gate, state, read, t);
        states.push(state).expect(rt, "one state more");
    }
    states
}

/// What stands at each moment from 0 to the horizon.
pub fn rows(rt: &impl Abort, alloc: Global, design: &Design) -> Vec<Row> {
    let mut states = Vec::new(alloc);
    for _ in 0..design.gate_count() {
        states.push(Driver::start()).expect(rt, "one state more");
    }
    let mut rows = Vec::new(alloc);
    for t in 0..=design.horizon() {
        let row = stand(rt, alloc, design, states, t);
        states = states_after(rt, alloc, design, &row, t);
        rows.push(row).expect(rt, "one row more");
    }
    rows
}
