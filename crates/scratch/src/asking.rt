//! The answers for the gates that are stirred at a moment, in their order.

ghost use Rattle.std.specs.Prelude.{◌≡◌, ◌<◌, ◌+◌, ◌++◌, map, length, slice_get, All, Some, OnOk, OnErr, if◌then◌else◌};
ghost use Rattle.std.specs.List.{flat_map};
ghost use Rattle.gatestep.specs.Faults.{is_lost};
ghost use Rattle.gatestep.specs.Record.{at_moment};
ghost use Rattle.gatestep.specs.Tasks.{IsReady, PendingFrom};
ghost use Rattle.design.specs.Keys.{netlist};
ghost use Rattle.scratch.specs.Run.{state_before};
ghost use Rattle.scratch.specs.Work.{is_stirred, stirred_at};
ghost use Rattle.scratch.specs.kept.Open.{asked_at, open_work_at};
ghost use Rattle.scratch.specs.kept.Places.{passing};
ghost use Rattle.scratch.specs.kept.Present.{IsPresent};
ghost use Rattle.scratch.specs.kept.Work.{HasGrownOrNot};

use crate::answering::answer_of;
use crate::beside::Beside;
use crate::moment::task;
use crate::present::Present;
use gatestep::{Driver, StepFault, Stepper, Task};
use std::alloc::{AllocError, Global};

/// The lists of what is asked at a moment.
#[derive(Drop)]
pub struct Asking {
    /// The answers for the stirred gates, in order.
    pub answers: Vec<Driver>,
    tasks: Vec<Task>,
    // The answers to the tasks.
    fresh: Vec<Driver>,
}

impl Asking {
    /// Empty lists. They take no memory.
    pub fn new(alloc: Global) -> Asking {
        Asking {
            answers: Vec::new(alloc),
            tasks: Vec::new(alloc),
            fresh: Vec::new(alloc),
        }
    }
}

/// The answers for the gates at some places, one after another. It fails only where nothing was asked.
fn answer_all<S: Stepper, B: Beside>(
    present: &Present,
    states: &[Driver],
    gates: &[usize],
    stepper: &mut S,
    beside: &mut B,
    answers: &mut Vec<Driver>,
) -> Result<(), AllocError>
    requires none_lost { S.losses stepper.old ≡ 0 }
    requires present { IsPresent S.answer present.now }
    requires fits { B.fits S.answer (netlist present.now.design.now) beside.old }
    requires states { states.now ≡ map (state_before S.answer (netlist present.now.design.now) present.now.t) (netlist present.now.design.now).gates }
    requires there { All (λ k. k < length states.now) gates.now }
    requires ready { All (PendingFrom present.now.t) states.now }
    ensures answers { OnOk result (map (λ answer. Some answer) answers.new.items ≡ map (slice_get (map (state_before S.answer (netlist present.now.design.now) (present.now.t + 1)) (netlist present.now.design.now).gates)) gates.now) }
    ensures asked { OnOk result (S.asked stepper.new ≡ S.asked stepper.old ++ flat_map (asked_at (B.is_open S.answer (netlist present.now.design.now) beside.old) S.answer (netlist present.now.design.now) present.now.t) gates.now) }
    ensures err { OnErr result (S.asked stepper.new ≡ S.asked stepper.old) }
    ensures lost { S.losses stepper.new ≡ S.losses stepper.old }
    ensures fits { OnOk result (B.fits S.answer (netlist present.now.design.now) beside.new) }
    ensures same { OnOk result (B.is_open S.answer (netlist present.now.design.now) beside.new ≡ B.is_open S.answer (netlist present.now.design.now) beside.old) }
{
    answers.clear();
    answers.reserve(gates.len())?;
    for i in 0..gates.len() {
        let place = gates[i];
        let answer = answer_of(present, place, states[place], stepper, beside);
        answers.push_reserved(answer);
    }
    Ok(())
}

/// The tasks of the gates at some places of which the answers are not known.
fn find_open_tasks<S: Stepper, B: Beside>(
    present: &Present,
    states: &[Driver],
    gates: &[usize],
    beside: &mut B,
    tasks: &mut Vec<Task>,
) -> Result<(), AllocError>
    requires present { IsPresent S.answer present.now }
    requires fits { B.fits S.answer (netlist present.now.design.now) beside.old }
    requires states { states.now ≡ map (state_before S.answer (netlist present.now.design.now) present.now.t) (netlist present.now.design.now).gates }
    requires there { All (λ k. k < length states.now) gates.now }
    requires ready { All (PendingFrom present.now.t) states.now }
    ensures tasks { OnOk result (at_moment present.now.t tasks.new.items ≡ flat_map (asked_at (B.is_open S.answer (netlist present.now.design.now) beside.old) S.answer (netlist present.now.design.now) present.now.t) gates.now) }
    ensures ready { OnOk result (All (IsReady present.now.t) tasks.new.items) }
    ensures fits { OnOk result (B.fits S.answer (netlist present.now.design.now) beside.new) }
    ensures same { OnOk result (B.is_open S.answer (netlist present.now.design.now) beside.new ≡ B.is_open S.answer (netlist present.now.design.now) beside.old) }
{
    tasks.clear();
    for i in 0..gates.len() {
        let place = gates[i];
        let state = states[place];
        if beside.known_answer::<S>(present, place, state).is_none() {
            tasks.push(task(&present.wiring.cells[place], state, present.values))?;
        }
    }
    Ok(())
}

/// The answers for the gates at some places: those that are known, and for the others these, in order.
fn weave<S: Stepper, B: Beside>(
    present: &Present,
    states: &[Driver],
    gates: &[usize],
    fresh: &[Driver],
    beside: &mut B,
    answers: &mut Vec<Driver>,
) -> Result<(), AllocError>
    requires present { IsPresent S.answer present.now }
    requires fits { B.fits S.answer (netlist present.now.design.now) beside.old }
    requires states { states.now ≡ map (state_before S.answer (netlist present.now.design.now) present.now.t) (netlist present.now.design.now).gates }
    requires there { All (λ k. k < length states.now) gates.now }
    requires fresh { fresh.now ≡ map (λ asked. S.answer asked.0 asked.1) (flat_map (asked_at (B.is_open S.answer (netlist present.now.design.now) beside.old) S.answer (netlist present.now.design.now) present.now.t) gates.now) }
    ensures answers { OnOk result (map (λ answer. Some answer) answers.new.items ≡ map (slice_get (map (state_before S.answer (netlist present.now.design.now) (present.now.t + 1)) (netlist present.now.design.now).gates)) gates.now) }
    ensures fits { OnOk result (B.fits S.answer (netlist present.now.design.now) beside.new) }
    ensures same { OnOk result (B.is_open S.answer (netlist present.now.design.now) beside.new ≡ B.is_open S.answer (netlist present.now.design.now) beside.old) }
{
    answers.clear();
    let mut next = 0;
    for i in 0..gates.len() {
        let place = gates[i];
        match beside.known_answer::<S>(present, place, states[place]) {
            Some(answer) => answers.push(answer)?,
            None => {
                answers.push(fresh[next])?;
                next += 1;
            }
        }
    }
    Ok(())
}

/// The answers for the gates at some places, of which those that are not known are asked for in one step; no step is made where
/// there is none.
fn deal<S: Stepper, B: Beside>(
    present: &Present,
    states: &[Driver],
    gates: &[usize],
    stepper: &mut S,
    beside: &mut B,
    asking: &mut Asking,
) -> Result<(), StepFault>
    requires present { IsPresent S.answer present.now }
    requires fits { B.fits S.answer (netlist present.now.design.now) beside.old }
    requires states { states.now ≡ map (state_before S.answer (netlist present.now.design.now) present.now.t) (netlist present.now.design.now).gates }
    requires there { All (λ k. k < length states.now) gates.now }
    requires ready { All (PendingFrom present.now.t) states.now }
    ensures answers { OnOk result (map (λ answer. Some answer) asking.new.answers.items ≡ map (slice_get (map (state_before S.answer (netlist present.now.design.now) (present.now.t + 1)) (netlist present.now.design.now).gates)) gates.now) }
    ensures asked { OnOk result (S.asked stepper.new ≡ S.asked stepper.old ++ flat_map (asked_at (B.is_open S.answer (netlist present.now.design.now) beside.old) S.answer (netlist present.now.design.now) present.now.t) gates.now) }
    ensures part { OnErr result (HasGrownOrNot (S.asked stepper.old) (S.asked stepper.new) (flat_map (asked_at (B.is_open S.answer (netlist present.now.design.now) beside.old) S.answer (netlist present.now.design.now) present.now.t) gates.now)) }
    ensures lost { S.losses stepper.new ≡ S.losses stepper.old + (if is_lost result then 1 else 0) }
    ensures fits { OnOk result (B.fits S.answer (netlist present.now.design.now) beside.new) }
    ensures same { OnOk result (B.is_open S.answer (netlist present.now.design.now) beside.new ≡ B.is_open S.answer (netlist present.now.design.now) beside.old) }
{
    find_open_tasks::<S, B>(present, states, gates, beside, &mut asking.tasks)?;
    asking.fresh.clear();
    if !asking.tasks.is_empty() {
        stepper.step(asking.tasks.as_slice(), present.t, &mut asking.fresh)?;
    }
    let fresh = asking.fresh.as_slice();
    weave::<S, B>(present, states, gates, fresh, beside, &mut asking.answers)?;
    Ok(())
}

/// The answers for the stirred gates, which are at these places.
pub fn ask<S: Stepper, B: Beside>(
    present: &Present,
    states: &[Driver],
    gates: &[usize],
    stepper: &mut S,
    beside: &mut B,
    asking: &mut Asking,
) -> Result<(), StepFault>
    requires present { IsPresent S.answer present.now }
    requires fits { B.fits S.answer (netlist present.now.design.now) beside.old }
    requires states { states.now ≡ map (state_before S.answer (netlist present.now.design.now) present.now.t) (netlist present.now.design.now).gates }
    requires gates { gates.now ≡ passing (λ g. is_stirred S.answer (netlist present.now.design.now) g present.now.t) 0 (netlist present.now.design.now).gates }
    requires ready { All (PendingFrom present.now.t) states.now }
    ensures answers { OnOk result (asking.new.answers.items ≡ map (state_before S.answer (netlist present.now.design.now) (present.now.t + 1)) (stirred_at S.answer (netlist present.now.design.now) present.now.t)) }
    ensures asked { OnOk result (S.asked stepper.new ≡ S.asked stepper.old ++ open_work_at (B.is_open S.answer (netlist present.now.design.now) beside.old) S.answer (netlist present.now.design.now) present.now.t) }
    ensures part { OnErr result (HasGrownOrNot (S.asked stepper.old) (S.asked stepper.new) (open_work_at (B.is_open S.answer (netlist present.now.design.now) beside.old) S.answer (netlist present.now.design.now) present.now.t)) }
    ensures lost { S.losses stepper.new ≡ S.losses stepper.old + (if is_lost result then 1 else 0) }
    ensures fits { OnOk result (B.fits S.answer (netlist present.now.design.now) beside.new) }
    ensures same { OnOk result (B.is_open S.answer (netlist present.now.design.now) beside.new ≡ B.is_open S.answer (netlist present.now.design.now) beside.old) }
{
    if stepper.deals(gates.len()) {
        return deal(present, states, gates, stepper, beside, asking);
    }
    answer_all(present, states, gates, stepper, beside, &mut asking.answers)?;
    Ok(())
}
