//! What live nets and held gates wait for.

ghost use Rattle.std.specs.Prelude.{◌≡◌, ◌<◌, ◌≤◌, ◌&&◌, ℕ, suc, not, true, OnOk, IfSome, length};
ghost use Rattle.std.specs.Option.{IsSomeAnd};
ghost use Rattle.std.specs.BTreeSet.{contains};
ghost use Rattle.std.specs.Ordering.{nat_cmp};
ghost use Rattle.event_queue.specs.kept.Noted.{noted};
ghost use Rattle.gatestep.specs.Tasks.{PendingFrom};
ghost use Rattle.design.specs.Connections.{to_net};
ghost use Rattle.design.specs.Keys.{connection_in, netlist};
ghost use Rattle.design.specs.kept.Keys.{IsThere};
ghost use Rattle.design.specs.Netlist.{Netlist};
ghost use Rattle.rundiff.specs.kept.Noting.{input_moves, is_at_live, net_moves, old_moves, pends};
ghost use Rattle.scratch.specs.kept.Places.{IsNotedWithin, Keeps, has};
ghost use Rattle.scratch.specs.kept.Run.{IsRun};

use crate::former::Former;
use crate::old::old_wave;
use crate::place_set::PlaceSet;
use design::{NetKey, Terminal};
use event_queue::EventQueue;
use fourstate::Value;
use gatestep::{Driver, Stepper};
use std::alloc::{AllocError, Global};
use waveform::laws;

/// Notes for the net at a place the next moment after `t` at which it has a stimulus point, or changes in the old run.
pub fn note_net<S: Stepper>(
    alloc: Global,
    queue: &mut EventQueue,
    former: &Former,
    place: usize,
    t: u64,
) -> Result<(), AllocError>
    requires there { place < length (netlist former.now.new.now).nets }
    requires run { IsRun S.answer former.now.old.now former.now.run.now }
    ensures next { OnOk result ((u : ℕ) → t < u → net_moves S.answer (netlist former.now.old.now) (netlist former.now.new.now) place u ≡ true → IsNotedWithin (noted queue.new) place (suc t) u) }
    ensures kept { OnOk result (Keeps (noted queue.old) (noted queue.new)) }
    ensures early { OnOk result ((u : ℕ) → u ≤ t → noted queue.new u ≡ noted queue.old u) }
{
    let net = former.new.net_at(place);
    net.lawful();
    let point = net.next_point(t);
    let key = former.new.net_key_at(place);
    let change = next_old_change::<S>(former, key, net.name().as_str(), t);
    note(alloc, queue, place, earlier(point, change), t)
}

/// Notes for the gate at a place the next moment after `t` at which an input that is at no live net changes in the old run.
pub fn note_inputs<S: Stepper>(
    alloc: Global,
    queue: &mut EventQueue,
    live: &PlaceSet,
    former: &Former,
    place: usize,
    t: u64,
) -> Result<(), AllocError>
    requires there { place < length (netlist former.now.new.now).gates }
    requires run { IsRun S.answer former.now.old.now former.now.run.now }
    ensures next { OnOk result ((u : ℕ) → t < u → input_moves S.answer (netlist former.now.old.now) (netlist former.now.new.now) (contains nat_cmp live.now) place u ≡ true
        → IsNotedWithin (noted queue.new) place (suc t) u) }
    ensures kept { OnOk result (Keeps (noted queue.old) (noted queue.new)) }
    ensures early { OnOk result ((u : ℕ) → u ≤ t → noted queue.new u ≡ noted queue.old u) }
{
    let gate = former.new.gate_at(place);
    let mut next = None;
    for terminal in gate.inputs() {
        let change = next_input_change::<S>(live, former, *terminal, t);
        next = earlier(next, change);
    }
    note(alloc, queue, place, next, t)
}

/// Notes for the gate at a place the event that is pending in its state after the moment `t`.
pub fn note_event(
    alloc: Global,
    queue: &mut EventQueue,
    place: usize,
    state: Driver,
    t: u64,
) -> Result<(), AllocError>
    requires { PendingFrom (suc t) state }
    ensures event { OnOk result ((u : ℕ) → pends state u ≡ true → has place (noted queue.new u) ≡ true) }
    ensures kept { OnOk result (Keeps (noted queue.old) (noted queue.new)) }
    ensures early { OnOk result ((u : ℕ) → u ≤ t → noted queue.new u ≡ noted queue.old u) }
{
    if let Some((_, moment)) = state.pending() {
        queue.add(alloc, moment, place)?;
    }
    Ok(())
}

/// Notes a number for the moment `next`, which lies after `t`, if there is one.
pub fn note(
    alloc: Global,
    queue: &mut EventQueue,
    number: usize,
    next: Option<u64>,
    t: u64,
) -> Result<(), AllocError>
    requires { IfSome next (λ m. t < m) }
    ensures next { OnOk result ((u : ℕ) → IsSomeAnd next (λ m. m ≤ u) → IsNotedWithin (noted queue.new) number (suc t) u) }
    ensures kept { OnOk result (Keeps (noted queue.old) (noted queue.new)) }
    ensures early { OnOk result ((u : ℕ) → u ≤ t → noted queue.new u ≡ noted queue.old u) }
{
    if let Some(moment) = next {
        queue.add(alloc, moment, number)?;
    }
    Ok(())
}

/// The earlier of two moments, of which each may be missing.
fn earlier(first: Option<u64>, second: Option<u64>) -> Option<u64>
    ensures after { (t : ℕ) → IfSome first (λ m. t < m) → IfSome second (λ m. t < m) → IfSome result (λ m. t < m) }
    ensures first { (u : ℕ) → IsSomeAnd first (λ m. m ≤ u) → IsSomeAnd result (λ m. m ≤ u) }
    ensures second { (u : ℕ) → IsSomeAnd second (λ m. m ≤ u) → IsSomeAnd result (λ m. m ≤ u) }
{
    match first {
        None => second,
        Some(one) => match second {
            Some(other) if other < one => Some(other),
            _ => Some(one),
        },
    }
}

/// The next moment after `t` at which the net of this name changes in the old run; it most likely has this key.
pub fn next_old_change<S: Stepper>(former: &Former, net: NetKey, name: &str, t: u64) -> Option<u64>
    requires run { IsRun S.answer former.now.old.now former.now.run.now }
    ensures after { IfSome result (λ m. t < m) }
    ensures first { (d : Netlist) (u : ℕ) → t < u → old_moves S.answer (netlist former.now.old.now) d (to_net name.now) u ≡ true → IsSomeAnd result (λ m. m ≤ u) }
{
    laws::drift_between::<Value>();
    match old_wave(former, net, name).next_after(t) {
        Some((change, _)) => Some(change),
        None => None,
    }
}

/// The next moment after `t` at which what an input is connected to changes in the old run; none for a live net, whose
/// readers are looked at when it changes.
fn next_input_change<S: Stepper>(
    live: &PlaceSet,
    former: &Former,
    terminal: Terminal,
    t: u64,
) -> Option<u64>
    requires there { IsThere former.now.new.now.nets terminal }
    requires run { IsRun S.answer former.now.old.now former.now.run.now }
    ensures after { IfSome result (λ m. t < m) }
    ensures first { (u : ℕ) → t < u → (not (is_at_live (netlist former.now.new.now) (contains nat_cmp live.now) (connection_in former.now.new.now.nets terminal))
        && old_moves S.answer (netlist former.now.old.now) (netlist former.now.new.now) (connection_in former.now.new.now.nets terminal) u) ≡ true → IsSomeAnd result (λ m. m ≤ u) }
{
    former.new.places_are_keys();
    let Terminal::Net(net) = terminal else {
        return None;
    };
    match former.new.net_place_of(net) {
        Some(place) if live.contains(place) => None,
        _ => next_old_change::<S>(former, net, former.new.name_of(net).as_str(), t),
    }
}
