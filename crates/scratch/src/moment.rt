//! One moment of a run: due events become current, then nets are resolved, then gates are evaluated.

ghost use Rattle.std.specs.Prelude.{◌≡◌, ◌<◌, ◌≤◌, ◌+◌, ◌++◌, IfSome, map, length, slice_get, unwrap_or, All, OnOk, IfOk, MatchResult, if◌then◌else◌};
ghost use Rattle.fourstate.specs.declared.limits.TheConstants.{MAX_INPUTS, MAX_TIME};
ghost use Rattle.gatestep.specs.Faults.{is_lost};
ghost use Rattle.gatestep.specs.Record.{at_moment};
ghost use Rattle.gatestep.specs.Step.{initial};
ghost use Rattle.gatestep.specs.Tasks.{IsReady, PendingFrom};
ghost use Rattle.design.specs.Keys.{netlist};
ghost use Rattle.scratch.specs.kept.Kept.{IsWiring, currents_of, evaluation_from, evaluations_from, input_value, net_from, values_at, values_from};
ghost use Rattle.scratch.specs.Run.{state_before, value};
ghost use Rattle.scratch.specs.Work.{task_at};
ghost use Rattle.scratch.specs.kept.Work.{HasGrownOrNot};
ghost use Rattle.scratch.specs.kept.Plain.{all_work_at};

use crate::packed_input::PackedInput;
use crate::wiring::{Cell, Input, Wiring};
use design::{Design, Net};
use fourstate::{Inputs, Value, resolve};
use gatestep::{Driver, StepFault, Stepper, Task};
use std::alloc::{AllocError, Global};
use std::mem::swap;

/// What stands at a moment, and the buffers in which it is found; they live through a run.
#[derive(Drop)]
pub struct Moment {
    /// The state of each gate's driver, in the order of the gates.
    pub states: Vec<Driver>,
    /// The value of each net, in the order of the nets.
    pub values: Vec<Value>,
    currents: Vec<Value>,
    driven: Vec<Value>,
    tasks: Vec<Task>,
    answers: Vec<Driver>,
}

impl Moment {
    /// What stands before moment 0: each driver holds x with nothing pending.
    pub fn before(alloc: Global, design: &Design) -> Result<Moment, AllocError>
        ensures states { IfOk result (λ moment. moment.states.items ≡ map (λ _. initial) (netlist design.now).gates) }
    {
        let mut states = Vec::with_capacity(alloc, design.gate_count())?;
        for _ in 0..design.gate_count() {
            states.push(Driver::start())?;
        }
        Ok(Moment {
            states,
            values: Vec::new(alloc),
            currents: Vec::new(alloc),
            driven: Vec::new(alloc),
            tasks: Vec::new(alloc),
            answers: Vec::new(alloc),
        })
    }

    /// Goes from what stood before the moment `t`, in time units, to what stands after it. No step is made without a
    /// task. After a fault what stands is not known.
    pub fn pass<S: Stepper>(
        &mut self,
        design: &Design,
        wiring: &Wiring,
        stepper: &mut S,
        t: u64,
    ) -> Result<(), StepFault>
        requires wired { IsWiring (netlist design.now) wiring.now }
        requires states { self.old.states.items ≡ map (state_before S.answer (netlist design.now) t) (netlist design.now).gates }
        requires ready { All (PendingFrom t) self.old.states.items }
        requires within { t ≤ MAX_TIME }
        ensures values { OnOk result (self.new.values.items ≡ map (λ n. value S.answer (netlist design.now) n t) (netlist design.now).nets) }
        ensures states { OnOk result (self.new.states.items ≡ map (state_before S.answer (netlist design.now) (t + 1)) (netlist design.now).gates) }
        ensures ready { OnOk result (All (PendingFrom (t + 1)) self.new.states.items) }
        ensures asked { MatchResult result
            (λ _. S.asked stepper.new ≡ S.asked stepper.old ++ all_work_at S.answer (netlist design.now) t)
            (λ _. HasGrownOrNot (S.asked stepper.old) (S.asked stepper.new) (all_work_at S.answer (netlist design.now) t)) }
        ensures lost { S.losses stepper.new ≡ S.losses stepper.old + (if is_lost result then 1 else 0) }
    {
        self.resolve::<S>(design, wiring, t)?;
        find_tasks(
            wiring,
            self.values.as_slice(),
            self.states.as_slice(),
            &mut self.tasks,
        )?;
        self.step(stepper, t)
    }

    /// Finds the value of each net at the moment `t`, by the states before it.
    pub fn resolve<S: Stepper>(
        &mut self,
        design: &Design,
        wiring: &Wiring,
        t: u64,
    ) -> Result<(), AllocError>
        requires wired { IsWiring (netlist design.now) wiring.now }
        requires states { self.old.states.items ≡ map (state_before S.answer (netlist design.now) t) (netlist design.now).gates }
        ensures values { OnOk result (self.new.values.items ≡ map (λ n. value S.answer (netlist design.now) n t) (netlist design.now).nets) }
        ensures states { self.new.states.items ≡ self.old.states.items }
    {
        find_currents(self.states.as_slice(), t, &mut self.currents)?;
        find_values(
            design,
            wiring,
            self.currents.as_slice(),
            t,
            &mut self.driven,
            &mut self.values,
        )?;
        Ok(())
    }

    /// The states and the values.
    pub fn parts(self) -> (Vec<Driver>, Vec<Value>)
        ensures states { result.0.items ≡ self.states.items }
        ensures values { result.1.items ≡ self.values.items }
    {
        (self.states, self.values)
    }

    /// Evaluates the tasks, and takes their answers for the states.
    fn step<S: Stepper>(&mut self, stepper: &mut S, t: u64) -> Result<(), StepFault>
        requires ready { All (IsReady t) self.old.tasks.items }
        requires within { t ≤ MAX_TIME }
        ensures states { OnOk result (self.new.states.items ≡ map (λ task. S.answer task t) self.old.tasks.items) }
        ensures values { self.new.values.items ≡ self.old.values.items }
        ensures later { OnOk result (All (PendingFrom (t + 1)) self.new.states.items) }
        ensures asked { S.asked stepper.new ≡ S.asked stepper.old ++ at_moment t self.old.tasks.items }
        ensures lost { S.losses stepper.new ≡ S.losses stepper.old + (if is_lost result then 1 else 0) }
    {
        self.answers.clear();
        if !self.tasks.is_empty() {
            stepper.step(self.tasks.as_slice(), t, &mut self.answers)?;
        }
        swap(&mut self.states, &mut self.answers);
        Ok(())
    }
}

/// The current values of the drivers at the moment `t`, once their due events have become current.
fn find_currents(states: &[Driver], t: u64, out: &mut Vec<Value>) -> Result<(), AllocError>
    ensures { OnOk result (out.new.items ≡ currents_of states.now t) }
{
    out.clear();
    for state in states {
        out.push(state.due(t).current())?;
    }
    Ok(())
}

/// The value at a place, x where there is none.
#[inline(always)]
pub fn value_at(values: &[Value], place: usize) -> Value
    ensures { result ≡ unwrap_or (slice_get values.now place) Value.Unknown }
{
    values.get(place).copied().unwrap_or(Value::Unknown)
}

/// The values at some places.
fn gather(values: &[Value], places: &[u32], out: &mut Vec<Value>) -> Result<(), AllocError>
    ensures { OnOk result (out.new.items ≡ values_at values.now places.now) }
{
    out.clear();
    for place in places {
        out.push(value_at(values, *place as usize))?;
    }
    Ok(())
}

/// The value of a net at the moment `t` from the current values of the drivers, those of its own at these places.
fn net_value(
    net: &Net,
    places: &[u32],
    currents: &[Value],
    t: u64,
    driven: &mut Vec<Value>,
) -> Result<Value, AllocError>
    ensures { IfOk result (λ v. v ≡ net_from currents.now t net.now places.now) }
{
    if net.is_input() {
        return Ok(net.stimulus_at(t));
    }
    gather(currents, places, driven)?;
    Ok(resolve(net.kind(), driven.as_slice()))
}

/// The value of each net at the moment `t`.
fn find_values(
    design: &Design,
    wiring: &Wiring,
    currents: &[Value],
    t: u64,
    driven: &mut Vec<Value>,
    out: &mut Vec<Value>,
) -> Result<(), AllocError>
    requires { IsWiring (netlist design.now) wiring.now }
    ensures { OnOk result (out.new.items ≡ values_from (netlist design.now) (map (λ places. places.items) wiring.now.drivers.items) currents.now t) }
{
    out.clear();
    for place in 0..design.net_count() {
        let places = wiring.drivers[place].as_slice();
        let value = net_value(design.net_at(place), places, currents, t, driven)?;
        out.push(value)?;
    }
    Ok(())
}

/// The value that an input reads, where the nets have these values.
#[inline(always)]
pub fn read_input(values: &[Value], input: Input) -> Value
    ensures { result ≡ input_value values.now input }
{
    match input {
        Input::At(place) => value_at(values, place as usize),
        Input::Fixed(value) => value,
    }
}

/// The value that an input reads, where the nets have these values. Most inputs read a net that is there, and that takes one
/// comparison.
#[inline(always)]
fn read_packed(values: &[Value], input: PackedInput) -> Value
    ensures { result ≡ input_value values.now input }
{
    match input.place_below(values.len()) {
        Some(place) => values[place],
        None => read_input(values, input.get()),
    }
}

/// The values that inputs read, where the nets have these values, one after another.
fn read_each(values: &[Value], inputs: &[PackedInput]) -> Inputs
    requires { length inputs.now ≤ MAX_INPUTS }
    ensures { result ≡ map (input_value values.now) inputs.now }
{
    let mut read_values = Inputs::new();
    let mut place = inputs.len();
    while place > 0 {
        place -= 1;
        read_values.put_first(read_packed(values, inputs[place]));
    }
    read_values
}

/// The values that inputs read, where the nets have these values. Those of a gate with few inputs are read without a loop.
#[inline(always)]
fn read_inputs(values: &[Value], inputs: &[PackedInput]) -> Inputs
    requires { length inputs.now ≤ MAX_INPUTS }
    ensures { result ≡ map (input_value values.now) inputs.now }
{
    let mut read_values = Inputs::new();
    match inputs {
        [first] => read_values.put_first(read_packed(values, *first)),
        [first, second] => {
            read_values.put_first(read_packed(values, *second));
            read_values.put_first(read_packed(values, *first));
        }
        [first, second, third] => {
            read_values.put_first(read_packed(values, *third));
            read_values.put_first(read_packed(values, *second));
            read_values.put_first(read_packed(values, *first));
        }
        [first, second, third, fourth] => {
            read_values.put_first(read_packed(values, *fourth));
            read_values.put_first(read_packed(values, *third));
            read_values.put_first(read_packed(values, *second));
            read_values.put_first(read_packed(values, *first));
        }
        _ => return read_each(values, inputs),
    }
    read_values
}

/// The task of a cell in this state.
#[inline(always)]
pub fn task(cell: &Cell, state: Driver, values: &[Value]) -> Task
    ensures { result ≡ evaluation_from values.now cell.now state }
{
    let read_values = read_inputs(values, cell.inputs());
    Task::new(cell.kind(), cell.delays(), state, read_values)
}

/// The task of each cell.
fn find_tasks(
    wiring: &Wiring,
    values: &[Value],
    states: &[Driver],
    out: &mut Vec<Task>,
) -> Result<(), AllocError>
    requires { length wiring.now.cells.items ≡ length states.now }
    ensures { OnOk result (out.new.items ≡ evaluations_from values.now wiring.now.cells.items states.now) }
{
    out.clear();
    for (place, cell) in wiring.cells.iter().enumerate() {
        out.push(task(cell, states[place], values))?;
    }
    Ok(())
}
