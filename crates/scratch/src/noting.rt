//! What is noted before a run goes on from a moment, and the next point of a net.

ghost use Rattle.std.specs.Prelude.{◌≡◌, ◌<◌, ◌≤◌, ◌+◌, [], ℕ, true, All, IfOk, OnOk};
ghost use Rattle.event_queue.specs.kept.Noted.{noted};
ghost use Rattle.gatestep.specs.Tasks.{PendingFrom};
ghost use Rattle.design.specs.Keys.{netlist};
ghost use Rattle.scratch.specs.kept.Places.{Announces, Covers, IsNotedWithin, Keeps, pends_at, point_at};

use design::Design;
use event_queue::EventQueue;
use gatestep::Driver;
use std::alloc::{AllocError, Global};

/// The gates at the moments of their pending events.
pub fn list_events(alloc: Global, states: &[Driver]) -> Result<EventQueue, AllocError>
    ensures covers { IfOk result (λ events. Covers (pends_at states.now) (noted events) 0) }
    ensures early { IfOk result (λ events. (n : ℕ) → All (PendingFrom n) states.now → (u : ℕ) → u < n → noted events u ≡ []) }
{
    let mut events = EventQueue::new(alloc);
    for place in 0..states.len() {
        let state = states[place];
        if let Some((_, t)) = state.pending() {
            events.add(alloc, t, place)?;
        }
    }
    Ok(events)
}

/// Each net at the moment of its first stimulus point after the moment `t`.
pub fn list_points(alloc: Global, design: &Design, t: u64) -> Result<EventQueue, AllocError>
    ensures announces { IfOk result (λ points. Announces (point_at (netlist design.now).nets) (noted points) (t + 1)) }
    ensures early { IfOk result (λ points. (u : ℕ) → u ≤ t → noted points u ≡ []) }
{
    let mut points = EventQueue::new(alloc);
    for place in 0..design.net_count() {
        note_next_point(alloc, design, place, t, &mut points)?;
    }
    Ok(points)
}

/// Notes the first stimulus point after the moment `t` of the net at a place.
pub fn note_next_point(
    alloc: Global,
    design: &Design,
    place: usize,
    t: u64,
    points: &mut EventQueue,
) -> Result<(), AllocError>
    ensures next { OnOk result ((u : ℕ) → t < u → point_at (netlist design.now).nets place u ≡ true → IsNotedWithin (noted points.new) place (t + 1) u) }
    ensures kept { OnOk result (Keeps (noted points.old) (noted points.new)) }
    ensures early { OnOk result ((u : ℕ) → u ≤ t → noted points.new u ≡ noted points.old u) }
{
    if place >= design.net_count() {
        return Ok(());
    }
    let net = design.net_at(place);
    net.lawful();
    if let Some(next) = net.next_point(t) {
        points.add(alloc, next, place)?;
    }
    Ok(())
}
