//! The old run by the places of the new design, so that no name is looked at again.

ghost use Rattle.std.specs.Prelude.{◌≡◌, suc, IfOk, length, map};
ghost use Rattle.design.specs.Connections.{to_net};
ghost use Rattle.design.specs.Keys.{netlist};
ghost use Rattle.waveform.specs.Changes.{wave_changes_below};
ghost use Rattle.waveform.specs.kept.Changes.{trace_below};
ghost use Rattle.scratch.specs.kept.Run.{IsRun};
ghost use Rattle.rundiff.specs.Dirty.{is_new};
ghost use Rattle.rundiff.specs.kept.Fronts.{named_state};
ghost use Rattle.rundiff.specs.kept.Kept.{read_at};
ghost use Rattle.rundiff.specs.kept.OldRuns.{HoldsEach};
ghost use Rattle.rundiff.specs.kept.OldRuns.{AreOldRun};
ghost use Rattle.rundiff.specs.kept.Places.{gate_at, net_at};

use crate::former::Former;
use crate::old::{old_trace, old_wave};
use crate::same::is_new_gate;
use gatestep::Stepper;
use std::alloc::{AllocError, Global};
use std::marker::Model;
use waveform::{Trace, Wave};

/// The run of an old design, by the places of a new one.
#[derive(Drop)]
pub struct OldRun<'a> {
    /// Of each net of the new design, the wave of the net of its name.
    pub waves: Vec<&'a Wave>,
    /// Of each gate, the trace of the gate of its name.
    pub traces: Vec<&'a Trace>,
    /// Of each gate, whether the old design has no such gate.
    pub others: Vec<bool>,
}

impl<'a> Model for OldRun<'a> {
    ghost use Rattle.std.specs.Prelude.{map};
    ghost use Rattle.rundiff.specs.kept.OldRuns.{OldRunRecord};

    ghost Value = { OldRunRecord };

    ghost view = { λ a. record { waves = map (λ wave. wave.now) a.waves.items; traces = map (λ trace. trace.now) a.traces.items; others = a.others.items } };
}

impl<'a> OldRun<'a> {
    /// The lines of the old run, and the blank ones where the old design has nothing of a name. It fails where memory runs
    /// out.
    pub fn find<S: Stepper>(alloc: Global, former: &Former<'a>) -> Result<OldRun<'a>, AllocError>
        requires run { IsRun S.answer former.now.old.now former.now.run.now }
        ensures { IfOk result (AreOldRun S.answer (netlist former.now.old.now) (netlist former.now.new.now)) }
    {
        let waves = old_waves::<S>(alloc, former)?;
        let traces = old_traces::<S>(alloc, former)?;
        let others = other_gates(alloc, former)?;
        Ok(OldRun {
            waves,
            traces,
            others,
        })
    }
}

/// Of each net of the new design, the wave of the net of its name.
fn old_waves<'a, S: Stepper>(
    alloc: Global,
    former: &Former<'a>,
) -> Result<Vec<&'a Wave>, AllocError>
    requires run { IsRun S.answer former.now.old.now former.now.run.now }
    ensures count { IfOk result (λ waves. length (map (λ wave. wave.now) waves.items) ≡ length (netlist former.now.new.now).nets) }
    ensures each { IfOk result (λ waves. HoldsEach (map (λ wave. wave.now) waves.items) (λ place wave.
        wave ≡ wave_changes_below (read_at S.answer (netlist former.now.old.now) (to_net (net_at (netlist former.now.new.now) place).name)) (suc (netlist former.now.old.now).horizon))) }
{
    let mut waves = Vec::with_capacity(alloc, former.new.net_count())?;
    for place in 0..former.new.net_count() {
        let key = former.new.net_key_at(place);
        let name = former.new.net_at(place).name().as_str();
        waves.push(old_wave(former, key, name))?;
    }
    Ok(waves)
}

/// Of each gate of the new design, the trace of the gate of its name.
fn old_traces<'a, S: Stepper>(
    alloc: Global,
    former: &Former<'a>,
) -> Result<Vec<&'a Trace>, AllocError>
    requires run { IsRun S.answer former.now.old.now former.now.run.now }
    ensures count { IfOk result (λ traces. length (map (λ trace. trace.now) traces.items) ≡ length (netlist former.now.new.now).gates) }
    ensures each { IfOk result (λ traces. HoldsEach (map (λ trace. trace.now) traces.items) (λ place trace.
        trace ≡ trace_below (named_state S.answer (netlist former.now.old.now) (gate_at (netlist former.now.new.now) place).name) (suc (netlist former.now.old.now).horizon))) }
{
    let mut traces = Vec::with_capacity(alloc, former.new.gate_count())?;
    for place in 0..former.new.gate_count() {
        let key = former.new.gate_key_at(place);
        let name = former.new.gate_at(place).name().as_str();
        traces.push(old_trace(former, key, name))?;
    }
    Ok(traces)
}

/// Of each gate of the new design, whether the old design has no such gate.
fn other_gates(alloc: Global, former: &Former) -> Result<Vec<bool>, AllocError>
    ensures count { IfOk result (λ others. length others.items ≡ length (netlist former.now.new.now).gates) }
    ensures each { IfOk result (λ others. HoldsEach others.items (λ place other. other ≡ is_new (netlist former.now.old.now) (gate_at (netlist former.now.new.now) place))) }
{
    let mut others = Vec::with_capacity(alloc, former.new.gate_count())?;
    for place in 0..former.new.gate_count() {
        let key = former.new.gate_key_at(place);
        others.push(is_new_gate(former.old, former.new, key, former.new.gate_at(place)))?;
    }
    Ok(others)
}
