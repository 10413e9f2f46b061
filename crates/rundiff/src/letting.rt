//! Nets and gates that go along with the old run again leave what is live.

ghost use Rattle.std.specs.Prelude.{◌≡◌, ◌<◌, ◌≤◌, ℕ, suc, true, false, All, IfSome, OnOk, length};
ghost use Rattle.event_queue.specs.kept.Noted.{noted};
ghost use Rattle.design.specs.Connections.{to_net};
ghost use Rattle.design.specs.Keys.{netlist};
ghost use Rattle.design.specs.Netlist.{reads};
ghost use Rattle.design.specs.kept.Places.{driver_places};
ghost use Rattle.scratch.specs.kept.Places.{IsNotedWithin, Keeps};
ghost use Rattle.scratch.specs.kept.Run.{IsRun};
ghost use Rattle.rundiff.specs.Dirty.{is_dirty};
ghost use Rattle.rundiff.specs.kept.Fronts.{IsClean, IsFront};
ghost use Rattle.rundiff.specs.kept.Noting.{old_moves};
ghost use Rattle.rundiff.specs.kept.Places.{gate_at, net_at};

use crate::former::Former;
use crate::front::Front;
use crate::noting::{next_old_change, note};
use crate::patches::leave;
use design::Design;
use event_queue::EventQueue;
use gatestep::Stepper;
use std::alloc::{AllocError, Global};

impl Front {
    /// Lets the gates go that were not dirty at the moment `t`, the last that is done, each with the net that it alone
    /// drives, where edits did not touch it.
    pub(crate) fn let_go<S: Stepper>(
        &mut self,
        alloc: Global,
        former: &Former,
        t: u64,
    ) -> Result<(), AllocError>
        requires run { IsRun S.answer former.now.old.now former.now.run.now }
        requires front { IsFront S.answer (netlist former.now.old.now) (netlist former.now.new.now) self.old (suc t) }
        requires within { t ≤ (netlist former.now.old.now).horizon }
        requires clean { All (IsClean S.answer (netlist former.now.old.now) (netlist former.now.new.now) t) self.old.outcomes.clean.items }
        ensures front { OnOk result (IsFront S.answer (netlist former.now.old.now) (netlist former.now.new.now) self.new (suc t)) }
        ensures done { OnOk result (self.new.done ≡ self.old.done) }
    {
        for i in 0..self.outcomes.clean.len() {
            let gate = self.outcomes.clean[i];
            self.let_go_gate::<S>(alloc, former, gate, t)?;
        }
        Ok(())
    }

    /// Lets one gate go.
    fn let_go_gate<S: Stepper>(
        &mut self,
        alloc: Global,
        former: &Former,
        gate: usize,
        t: u64,
    ) -> Result<(), AllocError>
        requires run { IsRun S.answer former.now.old.now former.now.run.now }
        requires front { IsFront S.answer (netlist former.now.old.now) (netlist former.now.new.now) self.old (suc t) }
        requires within { t ≤ (netlist former.now.old.now).horizon }
        requires gate { IsClean S.answer (netlist former.now.old.now) (netlist former.now.new.now) t gate }
        ensures front { OnOk result (IsFront S.answer (netlist former.now.old.now) (netlist former.now.new.now) self.new (suc t)) }
        ensures outcomes { OnOk result (self.new.outcomes ≡ self.old.outcomes) }
        ensures done { OnOk result (self.new.done ≡ self.old.done) }
    {
        let Some(net) = lone_output(former.new, gate) else {
            return Ok(());
        };
        if self.fixed.contains(net) {
            return Ok(());
        }
        if !self.live.contains(net) {
            return Ok(());
        }
        former.old.lawful();
        former.new.lawful();
        note_readers::<S>(alloc, &mut self.inputs, former, net, t)?;
        leave(&mut self.waves, net, t + 1)?;
        leave(&mut self.traces, gate, t + 1)?;
        self.live.remove(net);
        self.held.remove(gate);
        Ok(())
    }
}

/// The place of the net that a gate drives, if no other gate drives it.
fn lone_output(new: &Design, gate: usize) -> Option<usize>
    requires there { gate < length (netlist new.now).gates }
    ensures net { IfSome result (λ p. p < length (netlist new.now).nets) }
    ensures output { IfSome result (λ p. (gate_at (netlist new.now) gate).output ≡ (net_at (netlist new.now) p).name) }
    ensures alone { IfSome result (λ p. length (driver_places (netlist new.now).gates (net_at (netlist new.now) p).name) ≡ 1) }
{
    new.places_are_keys();
    let key = new.gate_at(gate).output();
    let Some(place) = new.net_place_of(key) else {
        unreachable!();
    };
    if new.drivers(key).len() == 1 {
        return Some(place);
    }
    None
}

/// Notes for the gates that read a net the next moment after `t` at which it changes in the old run.
fn note_readers<S: Stepper>(
    alloc: Global,
    queue: &mut EventQueue,
    former: &Former,
    net: usize,
    t: u64,
) -> Result<(), AllocError>
    requires there { net < length (netlist former.now.new.now).nets }
    requires run { IsRun S.answer former.now.old.now former.now.run.now }
    ensures next { OnOk result ((q u : ℕ) → q < length (netlist former.now.new.now).gates → reads (gate_at (netlist former.now.new.now) q) (net_at (netlist former.now.new.now) net).name ≡ true → t < u
        → old_moves S.answer (netlist former.now.old.now) (netlist former.now.new.now) (to_net (net_at (netlist former.now.new.now) net).name) u ≡ true → IsNotedWithin (noted queue.new) q (suc t) u) }
    ensures kept { OnOk result (Keeps (noted queue.old) (noted queue.new)) }
    ensures early { OnOk result ((u : ℕ) → u ≤ t → noted queue.new u ≡ noted queue.old u) }
{
    former.new.lawful();
    former.new.places_are_keys();
    let key = former.new.net_key_at(net);
    let name = former.new.net_at(net).name().as_str();
    let change = next_old_change::<S>(former, key, name, t);
    let readers = former.new.fanout(key);
    for reader in readers {
        let Some(gate) = former.new.gate_place_of(*reader) else {
            unreachable!();
        };
        note(alloc, queue, gate, change, t)?;
    }
    Ok(())
}
