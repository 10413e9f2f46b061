//! A front goes past moments at which nothing differs: all that is live are inputs, and their stimulus is that of the old design.

ghost use Rattle.std.specs.Prelude.{◌≡◌, ◌<◌, ◌≤◌, ℕ, suc, true, false, OnOk, length};
ghost use Rattle.fourstate.specs.declared.value.Value.{Value as Level};
ghost use Rattle.fourstate.specs.Values.{same_value};
ghost use Rattle.design.specs.Keys.{netlist};
ghost use Rattle.design.specs.Netlist.{stimulus};
ghost use Rattle.waveform.specs.Entries.{standing};
ghost use Rattle.waveform.specs.kept.Patches.{Keeps};
ghost use Rattle.rundiff.specs.Dirty.{rework_below};
ghost use Rattle.rundiff.specs.kept.Fronts.{EndBy, IsFree, IsFront};
ghost use Rattle.rundiff.specs.kept.Inputs.{IsSameInput};
ghost use Rattle.rundiff.specs.kept.PlaceMaps.{kept_at};
ghost use Rattle.rundiff.specs.kept.Places.{is_among};

use crate::former::Former;
use crate::front::Front;
use crate::old::old_net;
use crate::opening::note_all;
use crate::patches::leave;
use crate::place_map::PlaceMap;
use crate::places::places_of;
use design::Net;
use event_queue::EventQueue;
use fourstate::Value;
use gatestep::Stepper;
use std::alloc::{AllocError, Global};
use waveform::{Patch, Sample};

/// More live nets than so many for each one that was looked at last are not compared: that would cost more than to look on (own).
const COMPARED: usize = 8;

impl Front {
    /// Goes on, past the moments that are done, to the one at which the stimulus of a live net differs from that of the old
    /// design, or to `end`, where until then nothing else can differ. It fails where memory runs out, and then the front is to be
    /// dropped.
    pub fn leap<S: Stepper>(
        &mut self,
        alloc: Global,
        former: &Former,
        end: u64,
    ) -> Result<(), AllocError>
        requires front { IsFront S.answer (netlist former.now.old.now) (netlist former.now.new.now) self.old self.old.done }
        requires order { self.old.done ≤ end }
        requires within { end ≤ suc (netlist former.now.old.now).horizon }
        ensures front { OnOk result (IsFront S.answer (netlist former.now.old.now) (netlist former.now.new.now) self.new self.new.done) }
        ensures from { OnOk result (self.old.done ≤ self.new.done) }
        ensures until { OnOk result (self.new.done ≤ end) }
        ensures idle { OnOk result (rework_below S.answer (netlist former.now.old.now) (netlist former.now.new.now) self.new.done ≡ rework_below S.answer (netlist former.now.old.now) (netlist former.now.new.now) self.old.done) }
    {
        if !self.held.is_empty() {
            return Ok(());
        }
        if !self.is_worth_comparing() {
            return Ok(());
        }
        former.old.lawful();
        former.new.lawful();
        let places = places_of(alloc, &self.live)?;
        let until = all_same_until(former, places.as_slice(), self.done, end);
        if until <= self.done {
            return Ok(());
        }
        let nets = note_all(alloc, &self.live, until)?;
        leave_all(&mut self.waves, places.as_slice(), self.done)?;
        self.events = EventQueue::new(alloc);
        self.inputs = EventQueue::new(alloc);
        self.nets = nets;
        self.done = until;
        Ok(())
    }

    /// Whether there are few live nets for those that were looked at last, or nothing was looked at so far.
    fn is_worth_comparing(&self) -> bool
        ensures begun { result ≡ false → 0 < self.now.done }
    {
        if self.done == 0 {
            return true;
        }
        let few = self.net_places.len().saturating_mul(COMPARED);
        self.live.len() <= few.saturating_add(COMPARED)
    }
}

/// The moment, `end` at the latest, before which from `t` on each of these nets is an input with the same stimulus in both designs;
/// `t` or an earlier one where that is not so at `t`.
fn all_same_until(former: &Former, places: &[usize], t: u64, end: u64) -> u64
    requires there { (p : ℕ) → is_among places.now p ≡ true → p < length (netlist former.now.new.now).nets }
    ensures until { result ≤ end }
    ensures same { t < result → (p : ℕ) → is_among places.now p ≡ true → IsSameInput (netlist former.now.old.now) (netlist former.now.new.now) p t result }
{
    let mut until = end;
    for place in places {
        until = until.min(same_until(former, *place, t, end));
    }
    until
}

/// The moment before which from `t` on a net is an input with the same stimulus in both designs; 0 where it is none. Few points
/// from `end` on are compared.
fn same_until(former: &Former, place: usize, t: u64, end: u64) -> u64
    requires there { place < length (netlist former.now.new.now).nets }
    ensures { t < result → IsSameInput (netlist former.now.old.now) (netlist former.now.new.now) place t result }
{
    let net = former.new.net_at(place);
    let Some(key) = old_net(
        former.old,
        former.new.net_key_at(place),
        net.name().as_str(),
    ) else {
        return 0;
    };
    let was = former.old.net_of(key);
    if !net.is_input() {
        return 0;
    }
    if !was.is_input() {
        return 0;
    }
    alike_until(was, net, t, end)
}

/// The moment before which from `t` on two nets have the same stimulus; where they have it up to `end`, one from there on.
fn alike_until(one: &Net, other: &Net, t: u64, end: u64) -> u64
    ensures { (m : ℕ) → t ≤ m → m < result → stimulus one.now.points m ≡ stimulus other.now.points m }
{
    if stand_alike(one, other, t, end) {
        return end;
    }
    match one.parts_from(other, t, end) {
        Some(moment) => moment,
        None => u64::MAX,
    }
}

/// Whether two nets have no stimulus point after `t` and before `end`, and the same value at `t`.
fn stand_alike(one: &Net, other: &Net, t: u64, end: u64) -> bool
    ensures { result ≡ true → (m : ℕ) → t ≤ m → m < end → stimulus one.now.points m ≡ stimulus other.now.points m }
{
    if !stands(one, t, end) {
        return false;
    }
    if !stands(other, t, end) {
        return false;
    }
    one.stimulus_at(t).is_same(other.stimulus_at(t))
}

/// Whether a net has no stimulus point after `t` and before `end`.
fn stands(net: &Net, t: u64, end: u64) -> bool
    ensures { result ≡ true → (m : ℕ) → t ≤ m → m < end → stimulus net.now.points m ≡ stimulus net.now.points t }
{
    net.lawful();
    match net.next_point(t) {
        Some(point) => end <= point,
        None => true,
    }
}

/// The waves of some nets go along with the former ones from `t` on.
fn leave_all(waves: &mut PlaceMap<Patch<Value>>, places: &[usize], t: u64) -> Result<(), AllocError>
    requires { EndBy waves.old t }
    ensures ends { OnOk result (EndBy waves.new t) }
    ensures free { OnOk result ((p : ℕ) → is_among places.now p ≡ true → IsFree (kept_at waves.new p)) }
    ensures others { OnOk result ((p : ℕ) → is_among places.now p ≡ false → kept_at waves.new p ≡ kept_at waves.old p) }
    ensures made { OnOk result ((p : ℕ) → (f g : ℕ → Level) → Keeps same_value standing g f (kept_at waves.old p) t → Keeps same_value standing g f (kept_at waves.new p) t) }
{
    for place in places {
        leave(waves, *place, t)?;
    }
    Ok(())
}
