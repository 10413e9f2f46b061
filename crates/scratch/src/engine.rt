//! A run that goes from one moment at which something happens to the next.

ghost use Rattle.std.specs.Prelude.{◌≡◌, ◌≢◌, ◌<◌, ◌≤◌, ◌+◌, ◌++◌, [], ℕ, suc, map, IfSome, IfNone, IfOk, OnOk, OnErr};
ghost use Rattle.fourstate.specs.declared.limits.TheConstants.{MAX_TIME};
ghost use Rattle.event_queue.specs.kept.Noted.{noted};
ghost use Rattle.design.specs.Keys.{netlist};
ghost use Rattle.scratch.specs.kept.Kept.{IsWiring};
ghost use Rattle.scratch.specs.kept.Lost.{CountsLoss};
ghost use Rattle.scratch.specs.Run.{state_before};
ghost use Rattle.scratch.specs.kept.Run.{IsRun};
ghost use Rattle.scratch.specs.Asked.{IsAskedInPart, IsAskedInSomeOrder};
ghost use Rattle.scratch.specs.kept.Stands.{AreFound, IsStirred, Stands};
ghost use Rattle.scratch.specs.Work.{stirred_at};
ghost use Rattle.scratch.specs.kept.Open.{open_work_at};
ghost use Rattle.scratch.specs.kept.Work.{HasGrownOrNot};

use crate::answering::answer_each;
use crate::asking::{Asking, ask};
use crate::beside::Beside;
use crate::completing::complete_waves;
use crate::driving::drive_each;
use crate::finishing::{run_of_lines, share_traces, share_waves};
use crate::opening::Opening;
use crate::present::Present;
use crate::recording::Recording;
use crate::resolving::resolve_nets;
use crate::setting::Setting;
use crate::settling::settle;
use crate::stirred_gates::StirredGates;
use crate::stirring::{find_points, insert_all_readers, put_in_order};
use crate::tallies::Tallies;
use crate::wiring::Wiring;
use design::Design;
use event_queue::EventQueue;
use fourstate::Value;
use gatestep::{Driver, StepFault, Stepper};
use std::alloc::{AllocError, Global};
use waveform::{Lines, Run, laws};

/// What stands between two moments of a run, and what is to happen.
#[derive(Drop)]
pub struct Engine {
    /// The state of each gate's driver, in the order of the gates.
    pub states: Vec<Driver>,
    /// The value of each net, in the order of the nets.
    pub values: Vec<Value>,
    /// The waves so far, in the order of the nets; of a net to which one driver alone gives its value only moment 0.
    pub waves: Lines<Value>,
    /// The traces so far, in the order of the gates.
    pub traces: Lines<Driver>,
    /// Gates, at the moments of their pending events; also of events that were descheduled.
    pub events: EventQueue,
    /// Nets with stimulus points to come, each at the moment of its next one.
    pub points: EventQueue,
    // The lists of one moment, which live through the run.
    listed: Vec<usize>,
    /// The gates that are stirred at the moment.
    pub gates: StirredGates,
    nets: Vec<usize>,
    changed: Vec<usize>,
    /// The tallies of the nets with many drivers.
    pub(crate) tallies: Tallies,
    asking: Asking,
}

impl Engine {
    /// What stands after moment 0.
    pub(crate) fn open<S: Stepper, B: Beside>(
        alloc: Global,
        design: &Design,
        wiring: &Wiring,
        stepper: &mut S,
        beside: &mut B,
    ) -> Result<Engine, StepFault>
        requires wired { IsWiring (netlist design.now) wiring.now }
        requires fits { B.fits S.answer (netlist design.now) beside.old }
        ensures stands { IfOk result (λ engine. Stands S.answer (netlist design.now) engine 1) }
        ensures asked { OnOk result (S.asked stepper.new ≡ S.asked stepper.old ++ open_work_at (B.is_open S.answer (netlist design.now) beside.old) S.answer (netlist design.now) 0) }
        ensures part { OnErr result (HasGrownOrNot (S.asked stepper.old) (S.asked stepper.new) (open_work_at (B.is_open S.answer (netlist design.now) beside.old) S.answer (netlist design.now) 0)) }
        ensures lost { CountsLoss (S.losses stepper.old) (S.losses stepper.new) result }
        ensures fits { OnOk result (B.fits S.answer (netlist design.now) beside.new) }
        ensures same { OnOk result (B.is_open S.answer (netlist design.now) beside.new ≡ B.is_open S.answer (netlist design.now) beside.old) }
    {
        let mut opening = Opening::before::<S>(alloc, design, wiring)?;
        let present = Present {
            design,
            wiring,
            values: opening.values.as_slice(),
            t: 0,
        };
        ask(
            &present,
            opening.states.as_slice(),
            opening.gates.as_slice(),
            stepper,
            beside,
            &mut opening.asking,
        )?;
        Ok(opening.settle::<S>(alloc, design)?)
    }

    /// What stands with these states, values and lines, and is to happen at these moments.
    pub(crate) fn new(
        alloc: Global,
        states: Vec<Driver>,
        values: Vec<Value>,
        recording: Recording,
        events: EventQueue,
        points: EventQueue,
        tallies: Tallies,
    ) -> Engine
        ensures states { result.states ≡ states }
        ensures values { result.values ≡ values }
        ensures waves { result.waves ≡ recording.waves.items }
        ensures traces { result.traces ≡ recording.traces.items }
        ensures events { result.events ≡ events }
        ensures points { result.points ≡ points }
        ensures tallies { result.tallies ≡ tallies }
    {
        let Recording { waves, traces } = recording;
        Engine {
            states,
            values,
            waves: Lines::new(alloc, waves),
            traces: Lines::new(alloc, traces),
            events,
            points,
            listed: Vec::new(alloc),
            gates: StirredGates::new(alloc),
            nets: Vec::new(alloc),
            changed: Vec::new(alloc),
            tallies,
            asking: Asking::new(alloc),
        }
    }

    /// The next moment for which something is noted.
    fn next(&self) -> Option<u64>
        ensures some { IfSome result (λ t. noted self.now.events t ≡ [] → noted self.now.points t ≢ []) }
        ensures events { IfSome result (λ t. (u : ℕ) → u < t → noted self.now.events u ≡ []) }
        ensures points { IfSome result (λ t. (u : ℕ) → u < t → noted self.now.points u ≡ []) }
        ensures no_events { IfNone result ((u : ℕ) → noted self.now.events u ≡ []) }
        ensures no_points { IfNone result ((u : ℕ) → noted self.now.points u ≡ []) }
    {
        let event = self.events.first();
        let point = self.points.first();
        match event {
            None => point,
            Some(event) => match point {
                None => Some(event),
                Some(point) if point < event => Some(point),
                Some(_) => Some(event),
            },
        }
    }

    /// Goes through the moment `t`, before which all is done. After a fault what stands is not known.
    pub(crate) fn pass<S: Stepper, B: Beside>(
        &mut self,
        alloc: Global,
        design: &Design,
        wiring: &Wiring,
        stepper: &mut S,
        beside: &mut B,
        t: u64,
    ) -> Result<(), StepFault>
        requires wired { IsWiring (netlist design.now) wiring.now }
        requires stands { Stands S.answer (netlist design.now) self.old t }
        requires within { t ≤ MAX_TIME }
        requires fits { B.fits S.answer (netlist design.now) beside.old }
        ensures stands { OnOk result (Stands S.answer (netlist design.now) self.new (t + 1)) }
        ensures asked { OnOk result (IsAskedInSomeOrder (S.asked stepper.old) (S.asked stepper.new) (open_work_at (B.is_open S.answer (netlist design.now) beside.old) S.answer (netlist design.now) t)) }
        ensures part { OnErr result (IsAskedInPart (S.asked stepper.old) (S.asked stepper.new) (open_work_at (B.is_open S.answer (netlist design.now) beside.old) S.answer (netlist design.now) t)) }
        ensures lost { CountsLoss (S.losses stepper.old) (S.losses stepper.new) result }
        ensures fits { OnOk result (B.fits S.answer (netlist design.now) beside.new) }
        ensures same { OnOk result (B.is_open S.answer (netlist design.now) beside.new ≡ B.is_open S.answer (netlist design.now) beside.old) }
    {
        self.stir::<S>(alloc, design, wiring, t)?;
        if stepper.deals(self.gates.len()) {
            self.put_in_order::<S>(design, t);
            self.ask(design, wiring, stepper, beside, t)?;
            self.settle::<S>(design, t)?;
        } else {
            self.answer(design, wiring, stepper, beside, t)?;
        }
        Ok(())
    }

    /// Finds the answers for the gates that are stirred at the moment `t`, which stand in order.
    fn ask<S: Stepper, B: Beside>(
        &mut self,
        design: &Design,
        wiring: &Wiring,
        stepper: &mut S,
        beside: &mut B,
        t: u64,
    ) -> Result<(), StepFault>
        requires wired { IsWiring (netlist design.now) wiring.now }
        requires stirred { IsStirred S.answer (netlist design.now) self.old t }
        requires within { t ≤ MAX_TIME }
        requires fits { B.fits S.answer (netlist design.now) beside.old }
        ensures stirred { IsStirred S.answer (netlist design.now) self.new t }
        ensures answers { OnOk result (self.new.asking.answers.items ≡ map (state_before S.answer (netlist design.now) (t + 1)) (stirred_at S.answer (netlist design.now) t)) }
        ensures asked { OnOk result (S.asked stepper.new ≡ S.asked stepper.old ++ open_work_at (B.is_open S.answer (netlist design.now) beside.old) S.answer (netlist design.now) t) }
        ensures part { OnErr result (HasGrownOrNot (S.asked stepper.old) (S.asked stepper.new) (open_work_at (B.is_open S.answer (netlist design.now) beside.old) S.answer (netlist design.now) t)) }
        ensures lost { CountsLoss (S.losses stepper.old) (S.losses stepper.new) result }
        ensures fits { OnOk result (B.fits S.answer (netlist design.now) beside.new) }
        ensures same { OnOk result (B.is_open S.answer (netlist design.now) beside.new ≡ B.is_open S.answer (netlist design.now) beside.old) }
    {
        let present = Present {
            design,
            wiring,
            values: self.values.as_slice(),
            t,
        };
        ask(
            &present,
            self.states.as_slice(),
            self.gates.as_slice(),
            stepper,
            beside,
            &mut self.asking,
        )
    }

    /// Finds the answers for the gates that are stirred at the moment `t` one after another, and takes each for its gate's state.
    /// After a fault what stands is not known.
    fn answer<S: Stepper, B: Beside>(
        &mut self,
        design: &Design,
        wiring: &Wiring,
        stepper: &mut S,
        beside: &mut B,
        t: u64,
    ) -> Result<(), AllocError>
        requires none_lost { S.losses stepper.old ≡ 0 }
        requires wired { IsWiring (netlist design.now) wiring.now }
        requires found { AreFound S.answer (netlist design.now) self.old t }
        requires within { t ≤ MAX_TIME }
        requires fits { B.fits S.answer (netlist design.now) beside.old }
        ensures stands { OnOk result (Stands S.answer (netlist design.now) self.new (t + 1)) }
        ensures asked { OnOk result (IsAskedInSomeOrder (S.asked stepper.old) (S.asked stepper.new) (open_work_at (B.is_open S.answer (netlist design.now) beside.old) S.answer (netlist design.now) t)) }
        ensures part { OnErr result (IsAskedInPart (S.asked stepper.old) (S.asked stepper.new) (open_work_at (B.is_open S.answer (netlist design.now) beside.old) S.answer (netlist design.now) t)) }
        ensures lost { S.losses stepper.new ≡ S.losses stepper.old }
        ensures fits { OnOk result (B.fits S.answer (netlist design.now) beside.new) }
        ensures same { OnOk result (B.is_open S.answer (netlist design.now) beside.new ≡ B.is_open S.answer (netlist design.now) beside.old) }
    {
        let present = Present {
            design,
            wiring,
            values: self.values.as_slice(),
            t,
        };
        answer_each(
            &present,
            self.gates.as_slice(),
            stepper,
            beside,
            &mut self.states,
            &mut self.traces,
            &mut self.events,
        )?;
        Ok(())
    }

    /// Goes on to what the nets have at the moment `t`, before which all is done, and finds the stirred gates, in no order. After
    /// a fault what stands is not known.
    fn stir<S: Stepper>(
        &mut self,
        alloc: Global,
        design: &Design,
        wiring: &Wiring,
        t: u64,
    ) -> Result<(), AllocError>
        requires wired { IsWiring (netlist design.now) wiring.now }
        requires stands { Stands S.answer (netlist design.now) self.old t }
        requires within { t ≤ MAX_TIME }
        ensures { OnOk result (AreFound S.answer (netlist design.now) self.new t) }
    {
        design.lawful();
        let setting = Setting { design, wiring, t };
        self.listed.clear();
        self.events.take(t, &mut self.listed)?;
        find_points(alloc, design, &mut self.points, t, &mut self.nets)?;
        drive_each::<S>(
            &setting,
            self.states.as_slice(),
            self.listed.as_slice(),
            &mut self.values,
            &mut self.nets,
            &mut self.changed,
            &mut self.gates,
        )?;
        self.tallies.follow(
            design,
            wiring,
            self.states.as_slice(),
            self.listed.as_slice(),
            t,
        );
        put_in_order(&mut self.nets);
        let driven = self.changed.len();
        resolve_nets::<S>(
            &setting,
            self.states.as_slice(),
            self.nets.as_slice(),
            &mut self.tallies,
            &mut self.values,
            &mut self.waves,
            &mut self.changed,
        )?;
        let others = &self.changed.as_slice()[driven..];
        insert_all_readers(wiring, others, &mut self.gates)?;
        Ok(())
    }

    /// Puts the gates that are stirred at the moment `t` in order.
    fn put_in_order<S: Stepper>(&mut self, design: &Design, t: u64)
        requires { AreFound S.answer (netlist design.now) self.old t }
        ensures { IsStirred S.answer (netlist design.now) self.new t }
    {
        let _design = design;
        let _moment = t;
        self.gates.put_in_order();
    }

    /// Takes the answers of the gates that are stirred at the moment `t` for their states. After a fault what stands is not
    /// known.
    fn settle<S: Stepper>(&mut self, design: &Design, t: u64) -> Result<(), AllocError>
        requires stirred { IsStirred S.answer (netlist design.now) self.old t }
        requires within { t ≤ MAX_TIME }
        requires answers { self.old.asking.answers.items ≡ map (state_before S.answer (netlist design.now) (t + 1)) (stirred_at S.answer (netlist design.now) t) }
        ensures { OnOk result (Stands S.answer (netlist design.now) self.new (t + 1)) }
    {
        settle::<S>(
            design,
            self.gates.as_slice(),
            self.asking.answers.as_slice(),
            t,
            &mut self.states,
            &mut self.traces,
            &mut self.events,
        )?;
        Ok(())
    }

    /// The next moment, up to the horizon, at which something is noted, or else one more than the horizon. The moments below
    /// `done` are done, and until then no gate is stirred.
    pub(crate) fn advance<S: Stepper>(&self, design: &Design, done: u64) -> u64
        requires stands { Stands S.answer (netlist design.now) self.now done }
        requires within { done ≤ suc (netlist design.now).horizon }
        ensures from { done ≤ result }
        ensures within { result ≤ suc (netlist design.now).horizon }
        ensures stands { Stands S.answer (netlist design.now) self.now result }
        ensures quiet { (t : ℕ) → done ≤ t → t < result → stirred_at S.answer (netlist design.now) t ≡ [] }
    {
        design.lawful();
        laws::no_change::<Value>();
        laws::no_change::<Driver>();
        let end = design.horizon() + 1;
        self.next_below(end)
    }

    /// The next moment before `end` for which something is noted, or else `end`.
    fn next_below(&self, end: u64) -> u64
        ensures within { result ≤ end }
        ensures some { result < end → noted self.now.events result ≡ [] → noted self.now.points result ≢ [] }
        ensures events { (t : ℕ) → t < result → noted self.now.events t ≡ [] }
        ensures points { (t : ℕ) → t < result → noted self.now.points t ≡ [] }
    {
        match self.next() {
            Some(t) if t < end => t,
            _ => end,
        }
    }

    /// The run of the design, where all moments up to its horizon are done.
    pub(crate) fn finish<S: Stepper>(
        self,
        alloc: Global,
        design: &Design,
        wiring: &Wiring,
    ) -> Result<Run, AllocError>
        requires wired { IsWiring (netlist design.now) wiring.now }
        requires stands { Stands S.answer (netlist design.now) self (suc (netlist design.now).horizon) }
        ensures { IfOk result (IsRun S.answer design.now) }
    {
        let mut waves = self.waves.finish()?;
        let traces = self.traces.finish()?;
        complete_waves::<S>(design, wiring, traces.as_slice(), &mut waves)?;
        let waves = share_waves(alloc, waves)?;
        let traces = share_traces(alloc, traces)?;
        run_of_lines::<S>(alloc, design, waves, traces)
    }
}
