//! What comes of gates at the present moment.

ghost use Rattle.std.specs.Prelude.{◌≡◌, ◌≤◌, All, OnOk, map};
ghost use Rattle.gatestep.specs.Tasks.{IsReady};
ghost use Rattle.design.specs.Keys.{netlist};
ghost use Rattle.scratch.specs.kept.Run.{IsRun};
ghost use Rattle.rundiff.specs.Dirty.{working_at};
ghost use Rattle.rundiff.specs.kept.Fronts.{AreNetsDone, IsWaiting, tasks_in};
ghost use Rattle.scratch.specs.Work.{task_at};

use crate::former::Former;
use crate::front::Front;
use crate::gate_notes::{note_all_inputs, note_events};
use crate::gates::{look_at, put_states};
use gatestep::{Driver, Stepper};
use std::alloc::{AllocError, Global};
use waveform::laws;

impl Front {
    /// What comes of the held gates at the moment `t`: of those that are chosen each is evaluated or rests, and the others
    /// rest without a look.
    pub(crate) fn look_at_gates<S: Stepper>(
        &mut self,
        alloc: Global,
        former: &Former,
        t: u64,
    ) -> Result<(), AllocError>
        requires run { IsRun S.answer former.now.old.now former.now.run.now }
        requires front { AreNetsDone S.answer (netlist former.now.old.now) (netlist former.now.new.now) self.old t }
        requires within { t ≤ (netlist former.now.old.now).horizon }
        ensures tasks { OnOk result (tasks_in self.new ≡ map (λ g. task_at S.answer (netlist former.now.new.now) g t) (working_at S.answer (netlist former.now.old.now) (netlist former.now.new.now) t)) }
        ensures ready { OnOk result (All (IsReady t) (tasks_in self.new)) }
        ensures front { OnOk result (IsWaiting S.answer (netlist former.now.old.now) (netlist former.now.new.now) self.new t) }
    {
        former.old.lawful();
        former.new.lawful();
        laws::no_change_by_drift::<Driver>();
        look_at::<S>(
            &self.waves,
            &self.traces,
            former,
            &self.fixed,
            self.gates.as_slice(),
            t,
            &mut self.outcomes,
        )?;
        put_states::<S>(
            alloc,
            &mut self.traces,
            former,
            self.outcomes.resting.as_slice(),
            self.outcomes.states.as_slice(),
            t,
        )?;
        note_events(
            alloc,
            &mut self.events,
            self.outcomes.resting.as_slice(),
            self.outcomes.states.as_slice(),
            t,
        )?;
        note_all_inputs::<S>(
            alloc,
            &mut self.inputs,
            &self.live,
            former,
            self.gates.as_slice(),
            t,
        )?;
        Ok(())
    }
}
