//! The answers for gates, known or asked for.

ghost use Rattle.std.specs.Prelude.{◌≡◌, ◌<◌, ◌≤◌, ◌+◌, ◌++◌, ◌&&◌, [], ℕ, not, map, slice_get, All, Some, OnOk, OnErr};
ghost use Rattle.event_queue.specs.kept.Noted.{noted};
ghost use Rattle.gatestep.specs.Tasks.{PendingFrom};
ghost use Rattle.waveform.specs.kept.Changes.{trace_below};
ghost use Rattle.design.specs.Keys.{netlist};
ghost use Rattle.scratch.specs.Asked.{IsAskedInPart, IsAskedInSomeOrder};
ghost use Rattle.scratch.specs.Run.{state_after, state_before};
ghost use Rattle.scratch.specs.Work.{is_stirred};
ghost use Rattle.scratch.specs.kept.Open.{asked_at, open_work_at};
ghost use Rattle.scratch.specs.kept.Places.{AreApart, Covers, has, passing, pends_at};
ghost use Rattle.scratch.specs.kept.Present.{IsPresent};

use crate::beside::Beside;
use crate::moment::task;
use crate::present::Present;
use event_queue::EventQueue;
use gatestep::{Driver, Stepper};
use std::alloc::AllocError;
use waveform::{Lines, laws};

/// The answer for the gate at a place at the present moment, before which it is in this state: what is beside the run knows it,
/// or else it is asked for.
#[inline(always)]
pub fn answer_of<S: Stepper, B: Beside>(
    present: &Present,
    place: usize,
    state: Driver,
    stepper: &mut S,
    beside: &mut B,
) -> Driver
    requires none_lost { S.losses stepper.old ≡ 0 }
    requires present { IsPresent S.answer present.now }
    requires fits { B.fits S.answer (netlist present.now.design.now) beside.old }
    requires state { slice_get (map (state_before S.answer (netlist present.now.design.now) present.now.t) (netlist present.now.design.now).gates) place ≡ Some state }
    requires ready { PendingFrom present.now.t state }
    ensures answer { slice_get (map (state_before S.answer (netlist present.now.design.now) (present.now.t + 1)) (netlist present.now.design.now).gates) place ≡ Some result }
    ensures asked { S.asked stepper.new ≡ S.asked stepper.old ++ asked_at (B.is_open S.answer (netlist present.now.design.now) beside.old) S.answer (netlist present.now.design.now) present.now.t place }
    ensures lost { S.losses stepper.new ≡ S.losses stepper.old }
    ensures fits { B.fits S.answer (netlist present.now.design.now) beside.new }
    ensures same { B.is_open S.answer (netlist present.now.design.now) beside.new ≡ B.is_open S.answer (netlist present.now.design.now) beside.old }
{
    if let Some(answer) = beside.known_answer::<S>(present, place, state) {
        return answer;
    }
    let task = task(&present.wiring.cells[place], state, present.values);
    stepper.evaluate(&task, present.t)
}

/// Finds the answers for the stirred gates, which are at these places in any order, one after another, takes each for its gate's
/// state, and notes its event; the states of other gates stay. It fails where memory runs out; then a part was asked for.
pub fn answer_each<S: Stepper, B: Beside>(
    present: &Present,
    gates: &[usize],
    stepper: &mut S,
    beside: &mut B,
    states: &mut Vec<Driver>,
    traces: &mut Lines<Driver>,
    events: &mut EventQueue,
) -> Result<(), AllocError>
    requires none_lost { S.losses stepper.old ≡ 0 }
    requires begun { 0 < present.now.t }
    requires present { IsPresent S.answer present.now }
    requires fits { B.fits S.answer (netlist present.now.design.now) beside.old }
    requires apart { AreApart gates.now }
    requires gates { (k : ℕ) → has k gates.now ≡ has k (passing (λ g. is_stirred S.answer (netlist present.now.design.now) g present.now.t) 0 (netlist present.now.design.now).gates) }
    requires states { states.old.items ≡ map (state_before S.answer (netlist present.now.design.now) present.now.t) (netlist present.now.design.now).gates }
    requires ready { All (PendingFrom present.now.t) states.old.items }
    requires traces { traces.old ≡ map (λ g. trace_below (state_after S.answer (netlist present.now.design.now) g) present.now.t) (netlist present.now.design.now).gates }
    requires events { Covers (λ k u. not (has k gates.now) && pends_at states.old.items k u) (noted events.old) (present.now.t + 1) }
    requires early { (u : ℕ) → u < present.now.t + 1 → noted events.old u ≡ [] }
    ensures states { OnOk result (states.new.items ≡ map (state_before S.answer (netlist present.now.design.now) (present.now.t + 1)) (netlist present.now.design.now).gates) }
    ensures traces { OnOk result (traces.new ≡ map (λ g. trace_below (state_after S.answer (netlist present.now.design.now) g) (present.now.t + 1)) (netlist present.now.design.now).gates) }
    ensures events { OnOk result (Covers (pends_at states.new.items) (noted events.new) (present.now.t + 1)) }
    ensures early { OnOk result ((u : ℕ) → u < present.now.t + 1 → noted events.new u ≡ []) }
    ensures asked { OnOk result (IsAskedInSomeOrder (S.asked stepper.old) (S.asked stepper.new) (open_work_at (B.is_open S.answer (netlist present.now.design.now) beside.old) S.answer (netlist present.now.design.now) present.now.t)) }
    ensures part { OnErr result (IsAskedInPart (S.asked stepper.old) (S.asked stepper.new) (open_work_at (B.is_open S.answer (netlist present.now.design.now) beside.old) S.answer (netlist present.now.design.now) present.now.t)) }
    ensures lost { S.losses stepper.new ≡ S.losses stepper.old }
    ensures fits { OnOk result (B.fits S.answer (netlist present.now.design.now) beside.new) }
    ensures same { OnOk result (B.is_open S.answer (netlist present.now.design.now) beside.new ≡ B.is_open S.answer (netlist present.now.design.now) beside.old) }
{
    let alloc = *states.allocator();
    let t = present.t;
    present.design.lawful();
    laws::push_to_changes::<Driver>();
    laws::reached_by_changes::<Driver>();
    laws::changes_lie_before::<Driver>();
    laws::no_change::<Driver>();
    for i in 0..gates.len() {
        let place = gates[i];
        let state = states[place];
        let answer = answer_of(present, place, state, stepper, beside);
        states[place] = answer;
        traces.push_known(place, t, state.due(t), answer)?;
        if let Some((_, time)) = answer.pending() {
            events.add(alloc, time, place)?;
        }
    }
    Ok(())
}
