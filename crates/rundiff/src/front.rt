//! What differs at the present moment.

ghost use Rattle.std.specs.Prelude.{◌≡◌, ◌≤◌, ◌+◌, suc, All, OnOk, map};
ghost use Rattle.gatestep.specs.Tasks.{IsReady};
ghost use Rattle.design.specs.Keys.{netlist};
ghost use Rattle.scratch.specs.Run.{state_after};
ghost use Rattle.scratch.specs.kept.Run.{IsRun};
ghost use Rattle.rundiff.specs.Dirty.{working_at};
ghost use Rattle.rundiff.specs.kept.Fronts.{IsClean, IsFront, IsWaiting, tasks_in};
ghost use Rattle.scratch.specs.Work.{task_at};

use crate::former::Former;
use crate::gate_notes::note_events;
use crate::gates::{Outcomes, put_states};
use crate::place_map::PlaceMap;
use crate::place_set::PlaceSet;
use event_queue::EventQueue;
use fourstate::Value;
use gatestep::{Driver, Stepper, Task};
use std::alloc::{AllocError, Global};
use waveform::Patch;

/// What a new run keeps of its own beside an old one. Nets and gates are known by their places in the order of the new
/// design.
#[derive(Drop)]
pub struct Front {
    /// The nets that are live.
    pub live: PlaceSet,
    /// The gates that drive them.
    pub held: PlaceSet,
    /// The nets that edits touched, or a gate that they touched drives. They stay live.
    pub fixed: PlaceSet,
    /// The waves of live nets.
    pub waves: PlaceMap<Patch<Value>>,
    /// The traces of their drivers.
    pub traces: PlaceMap<Patch<Driver>>,
    /// Held gates, at the moments of their pending events; also of events that were descheduled.
    pub events: EventQueue,
    /// Held gates, each at the next moment at which an input that is at no live net changes in the old run, or at an earlier
    /// one.
    pub inputs: EventQueue,
    /// Live nets, each at the next moment at which it has a stimulus point or changes in the old run, or at an earlier one.
    pub nets: EventQueue,
    /// In `due`, the gates that are looked at.
    pub gates: Vec<usize>,
    /// In `due`, the nets that are looked at.
    pub net_places: Vec<usize>,
    /// In `due`, the nets that become live.
    pub found: Vec<usize>,
    /// Between `due` and `settle`, what comes of the gates that are looked at.
    pub outcomes: Outcomes,
    /// How many moments are done.
    pub done: u64,
}

impl Front {
    /// Finds the tasks of the gates that are dirty and stirred at the moment `t`, where all before `t` is done. It fails
    /// where memory runs out, and then the front is to be dropped.
    pub fn due<S: Stepper>(
        &mut self,
        alloc: Global,
        former: &Former,
        t: u64,
    ) -> Result<(), AllocError>
        requires run { IsRun S.answer former.now.old.now former.now.run.now }
        requires front { IsFront S.answer (netlist former.now.old.now) (netlist former.now.new.now) self.old t }
        requires within { t ≤ (netlist former.now.old.now).horizon }
        ensures tasks { OnOk result (tasks_in self.new ≡ map (λ g. task_at S.answer (netlist former.now.new.now) g t) (working_at S.answer (netlist former.now.old.now) (netlist former.now.new.now) t)) }
        ensures ready { OnOk result (All (IsReady t) (tasks_in self.new)) }
        ensures front { OnOk result (IsWaiting S.answer (netlist former.now.old.now) (netlist former.now.new.now) self.new t) }
    {
        self.look_at_nets::<S>(alloc, former, t)?;
        self.look_at_gates::<S>(alloc, former, t)
    }

    /// The tasks that `due` found, in the order of their gates.
    pub fn tasks(&self) -> &[Task]
        ensures { result.now ≡ tasks_in self.now }
    {
        self.outcomes.tasks.as_slice()
    }

    /// Takes the answers to the tasks of the moment `t`, which is done then. It fails where memory runs out, and then the
    /// front is to be dropped.
    pub fn settle<S: Stepper>(
        &mut self,
        alloc: Global,
        former: &Former,
        t: u64,
        answers: &[Driver],
    ) -> Result<(), AllocError>
        requires run { IsRun S.answer former.now.old.now former.now.run.now }
        requires front { IsWaiting S.answer (netlist former.now.old.now) (netlist former.now.new.now) self.old t }
        requires within { t ≤ (netlist former.now.old.now).horizon }
        requires answers { answers.now ≡ map (λ g. state_after S.answer (netlist former.now.new.now) g t) (working_at S.answer (netlist former.now.old.now) (netlist former.now.new.now) t) }
        ensures front { OnOk result (IsFront S.answer (netlist former.now.old.now) (netlist former.now.new.now) self.new (suc t)) }
        ensures done { OnOk result (self.new.done ≡ t + 1) }
    {
        self.take_answers::<S>(alloc, former, t, answers)?;
        self.let_go::<S>(alloc, former, t)
    }

    /// Takes the answers to the tasks of the moment `t`.
    fn take_answers<S: Stepper>(
        &mut self,
        alloc: Global,
        former: &Former,
        t: u64,
        answers: &[Driver],
    ) -> Result<(), AllocError>
        requires run { IsRun S.answer former.now.old.now former.now.run.now }
        requires front { IsWaiting S.answer (netlist former.now.old.now) (netlist former.now.new.now) self.old t }
        requires within { t ≤ (netlist former.now.old.now).horizon }
        requires answers { answers.now ≡ map (λ g. state_after S.answer (netlist former.now.new.now) g t) (working_at S.answer (netlist former.now.old.now) (netlist former.now.new.now) t) }
        ensures front { OnOk result (IsFront S.answer (netlist former.now.old.now) (netlist former.now.new.now) self.new (suc t)) }
        ensures clean { OnOk result (All (IsClean S.answer (netlist former.now.old.now) (netlist former.now.new.now) t) self.new.outcomes.clean.items) }
        ensures done { OnOk result (self.new.done ≡ t + 1) }
    {
        former.old.lawful();
        former.new.lawful();
        put_states::<S>(
            alloc,
            &mut self.traces,
            former,
            self.outcomes.working.as_slice(),
            answers,
            t,
        )?;
        note_events(
            alloc,
            &mut self.events,
            self.outcomes.working.as_slice(),
            answers,
            t,
        )?;
        self.done = t + 1;
        Ok(())
    }
}
