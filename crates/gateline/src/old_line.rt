//! What a gate did in the run of an old design, beside which it is followed.

ghost use Rattle.std.specs.Prelude.{◌≡◌, ◌<◌, ◌≤◌, ◌++◌, ◌∷◌, [], ℕ, suc, true, false, map, length, take, drop, IfNone, IfSome, IsTrue, if◌then◌else◌};
ghost use Rattle.std.specs.Option.{ForSome};
ghost use Rattle.fourstate.specs.Gates.{takes_inputs};
ghost use Rattle.fourstate.specs.declared.limits.TheConstants.{MAX_INPUTS, MAX_TIME};
ghost use Rattle.gatestep.specs.Tasks.{PendingFrom};
ghost use Rattle.gateline.specs.kept.Met.{HasMet};
ghost use Rattle.gateline.specs.kept.OldLines.{IsFollowedAt, line_if, line_seen, old_inputs, state_till, wanted_beside, wanted_by};
ghost use Rattle.gateline.specs.kept.Waves.{input_at, inputs_by};
ghost use Rattle.scratch.specs.Work.{same_values};
ghost use Rattle.waveform.specs.kept.Changes.{state_at};

use crate::readers::NEAR_READERS;
use chunked::Shared;
use fourstate::{Inputs, Value};
use gatestep::{Driver, Stepper, Task};
use scratch::{Cell, Input};
use smallvec::SmallVec;
use std::alloc::{AllocError, Global};
use waveform::{Trace, Wave};

/// What a gate did in the run of an old design.
#[derive(Clone, Copy)]
pub struct OldLine<'b, 'c> {
    /// The old design has no such gate: nothing is known of it.
    pub is_other: bool,
    /// The trace of its driver there.
    pub trace: &'c Trace,
    /// The waves there, by the places of the nets in the new design.
    pub waves: &'b [&'c Wave],
}

/// Where what was looked up last in the lines of an old run was found, so that the next look-up goes on from there.
#[derive(Drop)]
pub struct Near {
    trace: usize,
    // Of each input.
    waves: SmallVec<usize, NEAR_READERS>,
}

impl Near {
    /// Nothing was looked up of the inputs, so many, of a gate that is followed beside this line, if there is one.
    pub fn new(alloc: Global, beside: &Option<OldLine>, inputs: usize) -> Result<Near, AllocError> {
        let inputs = if beside.is_some() { inputs } else { 0 };
        let mut waves = SmallVec::with_capacity(alloc, inputs)?;
        for _ in 0..inputs {
            waves.push(0)?;
        }
        Ok(Near { trace: 0, waves })
    }
}

/// The state before the moment `t`, in time units, by a trace.
#[inline(always)]
fn state_before(trace: &Trace, near: &mut usize, t: u64) -> Driver
    ensures { result ≡ state_till trace.now t }
{
    if t == 0 {
        return Driver::start();
    }
    trace.at_near(near, t - 1)
}

/// The value that an input had at the moment `t`, in time units.
#[inline(always)]
fn old_value(input: Input, waves: &[&Wave], near: &mut usize, t: u64) -> Value
    ensures { result ≡ input_at (map (λ wave. wave.now) waves.now) input t }
{
    match input {
        Input::At(place) => match waves.get(place as usize) {
            Some(wave) => wave.at_near(near, t),
            None => Value::Unknown,
        },
        Input::Fixed(value) => value,
    }
}

impl<'b, 'c> OldLine<'b, 'c> {
    /// The values that the inputs of a gate had at the moment `t`, in time units.
    #[inline(always)]
    fn inputs(self, near: &mut Near, cell: &Cell, t: u64) -> Inputs
        ensures { result ≡ old_inputs (line_seen self.entry) cell.now.inputs t }
    {
        let places = cell.inputs();
        let nears = near.waves.as_mut_slice();
        let mut inputs = Inputs::new();
        let mut place = places.len();
        while place > 0 {
            place -= 1;
            let mut found = match nears.get(place) {
                Some(found) => *found,
                None => 0,
            };
            inputs.put_first(old_value(places[place].get(), self.waves, &mut found, t));
            if place < nears.len() {
                nears[place] = found;
            }
        }
        inputs
    }

    /// Whether the gate in this state before the moment `t`, in time units, with inputs of these values at it, had another task
    /// there, or the old design has no such gate.
    #[inline(always)]
    fn wants(self, near: &mut Near, cell: &Cell, state: Driver, inputs: Inputs, t: u64) -> bool
        ensures { result ≡ wanted_beside (line_seen self.entry) cell.now.inputs (record { kind = cell.now.kind; delays = cell.now.delays; state = state; inputs = inputs }) t }
    {
        if self.is_other {
            return true;
        }
        if !state_before(self.trace, &mut near.trace, t).is_same(state) {
            return true;
        }
        !self.inputs(near, cell, t).is_same(inputs)
    }

    /// The first moment, in time units, at which an input of the gate has another value than in the old run; none where there is no
    /// such moment. It is 0 where the old design has no such gate.
    pub fn parting(self, cell: &Cell, waves: &[Shared<Wave>]) -> Option<u64>
        ensures there { IfSome result (λ m. 0 < m) → self.entry.is_other ≡ false }
        ensures inputs { (t : ℕ) → IfSome result (λ m. t < m) → old_inputs (line_seen self.entry) cell.now.inputs t ≡ inputs_by waves.now cell.now.inputs t }
    {
        if self.is_other {
            return Some(0);
        }
        let mut first = None;
        for input in cell.inputs() {
            first = earlier(first, parting(input.get(), self.waves, waves));
        }
        first
    }

    /// A moment, in time units, from which on the inputs of the gate have the values that they had in the old run, if one is found.
    pub fn meeting(self, cell: &Cell, waves: &[Shared<Wave>]) -> Option<u64>
        ensures { IfSome result (λ m. (t : ℕ) → m ≤ t → old_inputs (line_seen self.entry) cell.now.inputs t ≡ inputs_by waves.now cell.now.inputs t) }
    {
        let mut last = 0u64;
        for input in cell.inputs() {
            match meeting(input.get(), self.waves, waves) {
                Some(moment) => last = last.max(moment),
                None => return None,
            }
        }
        Some(last)
    }
}

/// The earlier of two moments, where there are two.
fn earlier(first: Option<u64>, second: Option<u64>) -> Option<u64>
    ensures { (t : ℕ) → IfSome result (λ m. t < m) → IfSome first (λ m. t < m) × IfSome second (λ m. t < m) }
{
    match first {
        None => second,
        Some(moment) => match second {
            None => Some(moment),
            Some(another) => Some(moment.min(another)),
        },
    }
}

/// The first moment, in time units, at which an input reads other values in the two runs.
fn parting(input: Input, olds: &[&Wave], waves: &[Shared<Wave>]) -> Option<u64>
    ensures { (t : ℕ) → IfSome result (λ m. t < m) → input_at (map (λ wave. wave.now) olds.now) input t ≡ input_at waves.now input t }
{
    let Input::At(place) = input else {
        return None;
    };
    let Some(old) = olds.get(place as usize) else {
        return Some(0);
    };
    let Some(wave) = waves.get(place as usize) else {
        return Some(0);
    };
    old.parting(wave.value())
}

/// A moment, in time units, from which on an input reads the same values in both runs, if one is found.
fn meeting(input: Input, olds: &[&Wave], waves: &[Shared<Wave>]) -> Option<u64>
    ensures { IfSome result (λ m. (t : ℕ) → m ≤ t → input_at (map (λ wave. wave.now) olds.now) input t ≡ input_at waves.now input t) }
{
    let Input::At(place) = input else {
        return Some(0);
    };
    let Some(old) = olds.get(place as usize) else {
        return None;
    };
    let Some(wave) = waves.get(place as usize) else {
        return None;
    };
    old.meeting(wave.value())
}

/// The trace of the old run, where a gate in this state after the moment `t` had that state there too, and `meeting` is no later than
/// the moment after it; both are in time units.
#[inline(always)]
pub fn met<'b, 'c>(
    beside: &Option<OldLine<'b, 'c>>,
    near: &mut Near,
    meeting: u64,
    state: Driver,
    t: u64,
) -> Option<&'c Trace>
    requires { t ≤ MAX_TIME }
    ensures met { IfSome result (λ trace. HasMet beside.now t state trace.now) }
    ensures late { IfSome result (λ trace. meeting ≤ suc t) }
{
    if t + 1 < meeting {
        return None;
    }
    let Some(old) = beside else {
        return None;
    };
    if old.is_other || !old.trace.at_near(&mut near.trace, t).is_same(state) {
        return None;
    }
    Some(old.trace)
}

/// The state after the moment `t`, in time units, of a gate in this state before it, with inputs of these values at it. It is
/// evaluated, unless it had the same task in the old run, where the state is known.
#[inline(always)]
pub fn next_state<S: Stepper>(
    beside: &Option<OldLine>,
    near: &mut Near,
    cell: &Cell,
    state: Driver,
    inputs: Inputs,
    t: u64,
    stepper: &mut S,
) -> Driver
    requires none_lost { S.losses stepper.old ≡ 0 }
    requires fit { IsTrue (takes_inputs cell.now.kind (length inputs)) }
    requires ready { PendingFrom t state }
    requires within { t ≤ MAX_TIME }
    requires followed { ForSome beside.now (λ old. IsFollowedAt S.answer cell.now (line_seen old) t) }
    ensures state { result ≡ S.answer (record { kind = cell.now.kind; delays = cell.now.delays; state = state; inputs = inputs }) t }
    ensures asked { S.asked stepper.new ≡ S.asked stepper.old
        ++ (if wanted_by (line_if beside.now) cell.now.inputs (record { kind = cell.now.kind; delays = cell.now.delays; state = state; inputs = inputs }) t
        then (record { kind = cell.now.kind; delays = cell.now.delays; state = state; inputs = inputs }, t) ∷ [] else []) }
    ensures lost { S.losses stepper.new ≡ S.losses stepper.old }
{
    if let Some(old) = beside {
        if !old.wants(near, cell, state, inputs, t) {
            return old.trace.at_near(&mut near.trace, t);
        }
    }
    let task = Task::new(cell.kind(), cell.delays(), state, inputs);
    stepper.evaluate(&task, t)
}
