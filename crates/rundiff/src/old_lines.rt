//! What the old run knows of the answers for the gates of the new design, by their places there, so that no name is looked at
//! again. Time goes on from look to look, so each looks first where the line was looked up last.

ghost use Rattle.std.specs.Prelude.{◌≡◌, ◌<◌, ◌≤◌, [], false, not, All, IfOk, length, map};
ghost use Rattle.std.specs.List.{slice_index_or};
ghost use Rattle.fourstate.specs.declared.limits.TheConstants.{MAX_TIME};
ghost use Rattle.design.specs.Keys.{netlist};
ghost use Rattle.scratch.specs.kept.Kept.{cell_of, evaluation_from, input_value};
ghost use Rattle.scratch.specs.Run.{state_after};
ghost use Rattle.scratch.specs.kept.Run.{IsRun};
ghost use Rattle.scratch.specs.Work.{same_values, task_at};
ghost use Rattle.rundiff.specs.Dirty.{is_dirty};
ghost use Rattle.rundiff.specs.kept.OldRuns.{AreOldRun, HasWave, old_value, state_till};
ghost use Rattle.rundiff.specs.kept.Places.{gate_at};

use crate::former::Former;
use crate::old_run::OldRun;
use design::Design;
use fourstate::Value;
use gatestep::{Driver, Stepper};
use scratch::{Beside, Cell, Input, Present, read_input};
use std::alloc::{AllocError, Global};
use std::marker::Model;
use waveform::{Lookup, Sample, Timeline, laws};

/// The old run by the places of the new design.
#[derive(Drop)]
pub struct OldLines<'a> {
    design: &'a Design,
    waves: Vec<Lookup<'a, Value>>,
    traces: Vec<Lookup<'a, Driver>>,
    others: Vec<bool>,
}

impl<'a> Model for OldLines<'a> {
    ghost use Rattle.rundiff.specs.kept.OldRuns.{OldLinesRecord};

    ghost Value = { OldLinesRecord };

    ghost view = { λ a. record { design = a.design.now; run = record { waves = a.waves.items; traces = a.traces.items; others = a.others.items } } };
}

impl<'a> OldLines<'a> {
    /// The lines of the old run, and the blank ones where the old design has nothing of a name. It fails where memory runs out.
    pub fn find<S: Stepper>(alloc: Global, former: &Former<'a>) -> Result<OldLines<'a>, AllocError>
        requires run { IsRun S.answer former.now.old.now former.now.run.now }
        ensures design { IfOk result (λ lines. lines.design ≡ former.now.old.now) }
        ensures run { IfOk result (λ lines. AreOldRun S.answer (netlist former.now.old.now) (netlist former.now.new.now) lines.run) }
    {
        let run = OldRun::find::<S>(alloc, former)?;
        let OldRun {
            waves,
            traces,
            others,
        } = run;
        Ok(OldLines {
            design: former.old,
            waves: lookups_of(alloc, waves.as_slice())?,
            traces: lookups_of(alloc, traces.as_slice())?,
            others,
        })
    }

    /// What an input of a gate of the new design read in the old run at the moment `t`.
    #[inline(always)]
    fn value(&mut self, input: Input, t: u64) -> Value
        requires there { HasWave self.old.run input }
        ensures value { result ≡ old_value self.old.run t input }
        ensures same { self.new ≡ self.old }
    {
        match input {
            Input::At(place) => self.waves[place as usize].at(t),
            Input::Fixed(value) => value,
        }
    }

    /// Whether the inputs of a gate of the new design read in the old run what they read where the nets have these values.
    fn are_read(&mut self, cell: &Cell, values: &[Value], t: u64) -> bool
        requires there { All (HasWave self.old.run) cell.now.inputs }
        ensures read { result ≡ same_values (map (old_value self.old.run t) cell.now.inputs) (map (input_value values.now) cell.now.inputs) }
        ensures same { self.new ≡ self.old }
    {
        let inputs = cell.inputs();
        for i in 0..inputs.len() {
            let input = inputs[i].get();
            let value = read_input(values, input);
            let former = self.value(input, t);
            if !former.is_same(value) {
                return false;
            }
        }
        true
    }

    /// The state in the old run, before the moment `t`, of the gate at a place.
    #[inline(always)]
    fn state_before(&mut self, place: usize, t: u64) -> Driver
        requires there { place < length self.old.run.traces }
        ensures state { result ≡ state_till (slice_index_or self.old.run.traces place []) t }
        ensures same { self.new ≡ self.old }
    {
        if t == 0 {
            return Driver::start();
        }
        self.traces[place].at(t - 1)
    }

    /// Whether the gate at a place is not dirty at the present moment, before which it is in this state.
    #[inline(always)]
    fn is_clean<S: Stepper>(
        &mut self,
        present: &Present,
        cell: &Cell,
        place: usize,
        state: Driver,
    ) -> bool
        requires lines { AreOldRun S.answer (netlist self.old.design) (netlist present.now.design.now) self.old.run }
        requires there { place < length (netlist present.now.design.now).gates }
        requires within { present.now.t ≤ (netlist self.old.design).horizon }
        requires cell { cell.now ≡ cell_of (netlist present.now.design.now) (gate_at (netlist present.now.design.now) place) }
        requires task { evaluation_from present.now.values.now cell.now state ≡ task_at S.answer (netlist present.now.design.now) (gate_at (netlist present.now.design.now) place) present.now.t }
        ensures clean { result ≡ not (is_dirty S.answer (netlist self.old.design) (netlist present.now.design.now) (gate_at (netlist present.now.design.now) place) present.now.t) }
        ensures same { self.new ≡ self.old }
    {
        self.design.lawful();
        present.design.lawful();
        laws::value_of_changes::<Value>();
        laws::value_of_changes::<Driver>();
        if self.others[place] {
            return false;
        }
        if !self.state_before(place, present.t).is_same(state) {
            return false;
        }
        self.are_read(cell, present.values, present.t)
    }

    /// The state after the present moment of the gate at a place, which is not dirty then.
    #[inline(always)]
    fn state_after<S: Stepper>(&mut self, present: &Present, place: usize) -> Driver
        requires lines { AreOldRun S.answer (netlist self.old.design) (netlist present.now.design.now) self.old.run }
        requires there { place < length (netlist present.now.design.now).gates }
        requires within { present.now.t ≤ MAX_TIME }
        requires clean { is_dirty S.answer (netlist self.old.design) (netlist present.now.design.now) (gate_at (netlist present.now.design.now) place) present.now.t ≡ false }
        ensures state { result ≡ state_after S.answer (netlist present.now.design.now) (gate_at (netlist present.now.design.now) place) present.now.t }
        ensures same { self.new ≡ self.old }
    {
        self.design.lawful();
        laws::value_of_changes::<Driver>();
        self.state_before(place, present.t + 1)
    }
}

impl<'a> Beside for OldLines<'a> {
    ghost use Rattle.design.specs.Keys.{netlist};
    ghost use Rattle.rundiff.specs.Dirty.{is_dirty};
    ghost use Rattle.rundiff.specs.kept.OldRuns.{AreOldRun};

    ghost fits = { λ answer design lines. AreOldRun answer (netlist lines.design) design lines.run };

    ghost is_open = { λ answer design lines. is_dirty answer (netlist lines.design) design };

    #[inline(always)]
    fn known_answer<S: Stepper>(
        &mut self,
        present: &Present,
        place: usize,
        state: Driver,
    ) -> Option<Driver> {
        if present.t > self.design.horizon() {
            return None;
        }
        let cell = &present.wiring.cells[place];
        if !self.is_clean::<S>(present, cell, place, state) {
            return None;
        }
        Some(self.state_after::<S>(present, place))
    }
}

/// Timelines of which nothing was looked up.
fn lookups_of<'a, V: Sample>(
    alloc: Global,
    lines: &[&'a Timeline<V>],
) -> Result<Vec<Lookup<'a, V>>, AllocError>
    ensures { IfOk result (λ lookups. lookups.items ≡ map (λ line. line.now) lines.now) }
{
    let mut lookups = Vec::with_capacity(alloc, lines.len())?;
    for i in 0..lines.len() {
        lookups.push(Lookup::new(lines[i]))?;
    }
    Ok(lookups)
}
