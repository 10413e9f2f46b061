//! The nets at one moment: which are looked at, what they have, and what follows.

ghost use Rattle.std.specs.Prelude.{◌≡◌, ◌<◌, ◌≤◌, ℕ, suc, true, OnOk, length};
ghost use Rattle.event_queue.specs.kept.Noted.{noted};
ghost use Rattle.design.specs.Keys.{netlist};
ghost use Rattle.scratch.specs.kept.Places.{IsNotedWithin, Keeps};
ghost use Rattle.scratch.specs.kept.Run.{IsRun};
ghost use Rattle.rundiff.specs.kept.Fronts.{AreNetsDone, IsFront};
ghost use Rattle.rundiff.specs.kept.Noting.{net_moves};
ghost use Rattle.rundiff.specs.kept.Places.{is_among};

use crate::choosing::{choose_gates, choose_nets};
use crate::former::Former;
use crate::front::Front;
use crate::nets::{find_differing, put_values};
use crate::noting::note_net;
use crate::spreading::{add_changed, hold_found};
use event_queue::EventQueue;
use fourstate::Value;
use gatestep::Stepper;
use std::alloc::{AllocError, Global};
use waveform::laws;

impl Front {
    /// What the nets have at the moment `t`, which nets become live, and which gates are to be looked at.
    pub(crate) fn look_at_nets<S: Stepper>(
        &mut self,
        alloc: Global,
        former: &Former,
        t: u64,
    ) -> Result<(), AllocError>
        requires run { IsRun S.answer former.now.old.now former.now.run.now }
        requires front { IsFront S.answer (netlist former.now.old.now) (netlist former.now.new.now) self.old t }
        requires within { t ≤ (netlist former.now.old.now).horizon }
        ensures { OnOk result (AreNetsDone S.answer (netlist former.now.old.now) (netlist former.now.new.now) self.new t) }
    {
        former.new.lawful();
        laws::no_change::<Value>();
        self.gates.clear();
        choose_gates(&mut self.events, &self.held, t, &mut self.gates)?;
        choose_nets(
            &mut self.nets,
            &self.live,
            former.new,
            t,
            self.gates.as_slice(),
            &mut self.net_places,
        )?;
        put_values::<S>(
            alloc,
            &mut self.waves,
            &self.traces,
            former,
            self.net_places.as_slice(),
            t,
        )?;
        add_changed::<S>(
            &self.waves,
            former,
            self.net_places.as_slice(),
            t,
            &mut self.gates,
        )?;
        find_differing::<S>(
            &self.waves,
            former,
            self.net_places.as_slice(),
            &self.live,
            t,
            &mut self.found,
        )?;
        hold_found(
            &mut self.live,
            &mut self.held,
            former.new,
            &mut self.found,
            &mut self.net_places,
            &mut self.gates,
        )?;
        choose_gates(&mut self.inputs, &self.held, t, &mut self.gates)?;
        note_nets::<S>(alloc, &mut self.nets, former, self.net_places.as_slice(), t)?;
        Ok(())
    }
}

/// Notes for each of some nets the next moment after `t` at which it has a stimulus point, or changes in the old run.
fn note_nets<S: Stepper>(
    alloc: Global,
    queue: &mut EventQueue,
    former: &Former,
    nets: &[usize],
    t: u64,
) -> Result<(), AllocError>
    requires there { (p : ℕ) → is_among nets.now p ≡ true → p < length (netlist former.now.new.now).nets }
    requires run { IsRun S.answer former.now.old.now former.now.run.now }
    ensures next { OnOk result ((p u : ℕ) → is_among nets.now p ≡ true → t < u → net_moves S.answer (netlist former.now.old.now) (netlist former.now.new.now) p u ≡ true
        → IsNotedWithin (noted queue.new) p (suc t) u) }
    ensures kept { OnOk result (Keeps (noted queue.old) (noted queue.new)) }
    ensures early { OnOk result ((u : ℕ) → u ≤ t → noted queue.new u ≡ noted queue.old u) }
{
    for place in nets {
        note_net::<S>(alloc, queue, former, *place, t)?;
    }
    Ok(())
}
