//! What the answers of a moment leave.

ghost use Rattle.std.specs.Prelude.{◌≡◌, ◌<◌, ◌≤◌, ◌+◌, ◌&&◌, [], ℕ, not, map, length, OnOk};
ghost use Rattle.fourstate.specs.declared.limits.TheConstants.{MAX_TIME};
ghost use Rattle.event_queue.specs.kept.Noted.{noted};
ghost use Rattle.waveform.specs.kept.Changes.{trace_below};
ghost use Rattle.design.specs.Keys.{netlist};
ghost use Rattle.scratch.specs.kept.Places.{Covers, has, passing, pends_at};
ghost use Rattle.scratch.specs.Run.{state_after, state_before};
ghost use Rattle.scratch.specs.Work.{is_stirred, stirred_at};

use design::Design;
use event_queue::EventQueue;
use gatestep::{Driver, Stepper};
use std::alloc::AllocError;
use waveform::{Lines, laws};

/// Takes the answers of the stirred gates, which are at these places, for their states, and notes their events; the states of
/// other gates stay.
pub fn settle<S: Stepper>(
    design: &Design,
    gates: &[usize],
    answers: &[Driver],
    t: u64,
    states: &mut Vec<Driver>,
    traces: &mut Lines<Driver>,
    events: &mut EventQueue,
) -> Result<(), AllocError>
    requires begun { 0 < t }
    requires within { t ≤ MAX_TIME }
    requires gates { gates.now ≡ passing (λ g. is_stirred S.answer (netlist design.now) g t) 0 (netlist design.now).gates }
    requires answers { answers.now ≡ map (state_before S.answer (netlist design.now) (t + 1)) (stirred_at S.answer (netlist design.now) t) }
    requires beside { length answers.now ≡ length gates.now }
    requires states { states.old.items ≡ map (state_before S.answer (netlist design.now) t) (netlist design.now).gates }
    requires traces { traces.old ≡ map (λ g. trace_below (state_after S.answer (netlist design.now) g) t) (netlist design.now).gates }
    requires events { Covers (λ k u. not (has k gates.now) && pends_at states.old.items k u) (noted events.old) (t + 1) }
    requires early { (u : ℕ) → u < t + 1 → noted events.old u ≡ [] }
    ensures states { OnOk result (states.new.items ≡ map (state_before S.answer (netlist design.now) (t + 1)) (netlist design.now).gates) }
    ensures traces { OnOk result (traces.new ≡ map (λ g. trace_below (state_after S.answer (netlist design.now) g) (t + 1)) (netlist design.now).gates) }
    ensures events { OnOk result (Covers (pends_at states.new.items) (noted events.new) (t + 1)) }
    ensures early { OnOk result ((u : ℕ) → u < t + 1 → noted events.new u ≡ []) }
{
    let alloc = *states.allocator();
    design.lawful();
    laws::push_to_changes::<Driver>();
    laws::reached_by_changes::<Driver>();
    laws::changes_lie_before::<Driver>();
    laws::no_change::<Driver>();
    for i in 0..gates.len() {
        let place = gates[i];
        let answer = answers[i];
        let known = states[place].due(t);
        states[place] = answer;
        traces.push_known(place, t, known, answer)?;
        if let Some((_, time)) = answer.pending() {
            events.add(alloc, time, place)?;
        }
    }
    Ok(())
}
