//! What some gates wait for.

ghost use Rattle.std.specs.Prelude.{◌≡◌, ◌<◌, ◌≤◌, ℕ, suc, true, All, OnOk, length, map};
ghost use Rattle.std.specs.BTreeSet.{contains};
ghost use Rattle.std.specs.Ordering.{nat_cmp};
ghost use Rattle.event_queue.specs.kept.Noted.{noted};
ghost use Rattle.gatestep.specs.Step.{State};
ghost use Rattle.gatestep.specs.Tasks.{PendingFrom};
ghost use Rattle.design.specs.Keys.{netlist};
ghost use Rattle.rundiff.specs.kept.Noting.{input_moves, pends};
ghost use Rattle.rundiff.specs.kept.Places.{is_among};
ghost use Rattle.scratch.specs.kept.Places.{IsNotedWithin, Keeps, has};
ghost use Rattle.scratch.specs.kept.Run.{IsRun};

use crate::former::Former;
use crate::noting::{note_event, note_inputs};
use crate::place_set::PlaceSet;
use event_queue::EventQueue;
use gatestep::{Driver, Stepper};
use std::alloc::{AllocError, Global};

/// Notes for the gates at these places the events that are pending in their states after the moment `t`.
pub fn note_events(
    alloc: Global,
    queue: &mut EventQueue,
    places: &[usize],
    states: &[Driver],
    t: u64,
) -> Result<(), AllocError>
    requires many { length states.now ≡ length places.now }
    requires later { All (PendingFrom (suc t)) states.now }
    ensures events { OnOk result ((f : ℕ → State) → states.now ≡ map f places.now → (p u : ℕ) → is_among places.now p ≡ true → pends (f p) u ≡ true → has p (noted queue.new u) ≡ true) }
    ensures kept { OnOk result (Keeps (noted queue.old) (noted queue.new)) }
    ensures early { OnOk result ((u : ℕ) → u ≤ t → noted queue.new u ≡ noted queue.old u) }
{
    for i in 0..places.len() {
        note_event(alloc, queue, places[i], states[i], t)?;
    }
    Ok(())
}

/// Notes for each of the gates at these places the next moment after `t` at which an input that is at no live net changes in
/// the old run.
pub fn note_all_inputs<S: Stepper>(
    alloc: Global,
    queue: &mut EventQueue,
    live: &PlaceSet,
    former: &Former,
    places: &[usize],
    t: u64,
) -> Result<(), AllocError>
    requires there { (p : ℕ) → is_among places.now p ≡ true → p < length (netlist former.now.new.now).gates }
    requires run { IsRun S.answer former.now.old.now former.now.run.now }
    ensures next { OnOk result ((p u : ℕ) → is_among places.now p ≡ true → t < u → input_moves S.answer (netlist former.now.old.now) (netlist former.now.new.now) (contains nat_cmp live.now) p u ≡ true
        → IsNotedWithin (noted queue.new) p (suc t) u) }
    ensures kept { OnOk result (Keeps (noted queue.old) (noted queue.new)) }
    ensures early { OnOk result ((u : ℕ) → u ≤ t → noted queue.new u ≡ noted queue.old u) }
{
    for place in places {
        note_inputs::<S>(alloc, queue, live, former, *place, t)?;
    }
    Ok(())
}
