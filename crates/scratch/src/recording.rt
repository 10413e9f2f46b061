//! What a run leaves, as it grows: the wave of each net and the trace of each gate's driver.

ghost use Rattle.std.specs.Prelude.{◌≡◌, ◌∷◌, [], map, All, IfOk, OnOk, length};
ghost use Rattle.waveform.specs.kept.Entries.{CanStore};
ghost use Rattle.catalog.specs.kept.Catalog.{keys_of};
ghost use Rattle.design.specs.Keys.{netlist};
ghost use Rattle.scratch.specs.kept.Recordings.{AreUnder};

use chunked::Shared;
use design::Design;
use fourstate::Value;
use gatestep::Driver;
use std::alloc::{AllocError, Global};
use waveform::{Run, Sample, Timeline, Trace, Wave};

/// The wave of each net and the trace of each gate's driver so far.
#[derive(Drop)]
pub struct Recording {
    /// The waves, in the order of the nets.
    pub waves: Vec<Wave>,
    /// The traces, in the order of the gates.
    pub traces: Vec<Trace>,
}

impl Recording {
    /// What stands at moment 0.
    pub fn open(alloc: Global, values: &[Value], states: &[Driver]) -> Result<Recording, AllocError>
        requires { All (CanStore 0) states.now }
        ensures waves { IfOk result (λ recording. recording.waves.items ≡ map (λ v. (0, v) ∷ []) values.now) }
        ensures traces { IfOk result (λ recording. recording.traces.items ≡ map (λ s. (0, s) ∷ []) states.now) }
    {
        let waves = open_each(alloc, values)?;
        let traces = open_each(alloc, states)?;
        Ok(Recording { waves, traces })
    }
}

/// What a run leaves, to be shared with others: the wave of each net and the trace of each gate's driver.
#[derive(Drop)]
pub struct SharedRecording {
    /// The waves, in the order of the nets.
    pub waves: Vec<Shared<Wave>>,
    /// The traces, in the order of the gates.
    pub traces: Vec<Shared<Trace>>,
}

impl SharedRecording {
    /// The run of this design: the waves under the keys of its nets, the traces under the keys of its gates.
    pub fn finish(self, alloc: Global, design: &Design) -> Result<Run, AllocError>
        requires nets { length self.waves.items ≡ length (netlist design.now).nets }
        requires gates { length self.traces.items ≡ length (netlist design.now).gates }
        ensures waves { IfOk result (λ run. AreUnder (keys_of design.now.nets) self.waves.items run.waves) }
        ensures traces { IfOk result (λ run. AreUnder (keys_of design.now.gates) self.traces.items run.traces) }
        ensures horizon { IfOk result (λ run. run.horizon ≡ (netlist design.now).horizon) }
    {
        let SharedRecording { waves, traces } = self;
        let mut run = Run::new(alloc, design.horizon());
        put_waves(&mut run, design, waves)?;
        put_traces(&mut run, design, traces)?;
        Ok(run)
    }
}

/// Puts each wave under the key of the net at its place, from the last one on. Where an allocation was refused, which waves
/// the run has is not known.
fn put_waves(run: &mut Run, design: &Design, waves: Vec<Shared<Wave>>) -> Result<(), AllocError>
    requires nets { length waves.items ≡ length (netlist design.now).nets }
    requires none { run.old.waves ≡ [] }
    ensures waves { OnOk result (AreUnder (keys_of design.now.nets) waves.items run.new.waves) }
    ensures traces { run.new.traces ≡ run.old.traces }
    ensures horizon { run.new.horizon ≡ run.old.horizon }
{
    let mut waves = waves;
    while let Some(wave) = waves.pop() {
        let net = design.net_key_at(waves.len());
        run.share_wave(net.number(), wave)?;
    }
    Ok(())
}

/// Puts each trace under the key of the gate at its place, from the last one on. Where an allocation was refused, which traces
/// the run has is not known.
fn put_traces(run: &mut Run, design: &Design, traces: Vec<Shared<Trace>>) -> Result<(), AllocError>
    requires gates { length traces.items ≡ length (netlist design.now).gates }
    requires none { run.old.traces ≡ [] }
    ensures traces { OnOk result (AreUnder (keys_of design.now.gates) traces.items run.new.traces) }
    ensures waves { run.new.waves ≡ run.old.waves }
    ensures horizon { run.new.horizon ≡ run.old.horizon }
{
    let mut traces = traces;
    while let Some(trace) = traces.pop() {
        let gate = design.gate_key_at(traces.len());
        run.share_trace(gate.number(), trace)?;
    }
    Ok(())
}

/// A timeline for each of some values, which hold from moment 0 on.
pub fn open_each<V: Sample>(alloc: Global, values: &[V]) -> Result<Vec<Timeline<V>>, AllocError>
    requires { All (V.can_store 0) values.now }
    ensures { IfOk result (λ lines. lines.items ≡ map (λ v. (0, v) ∷ []) values.now) }
{
    let mut lines = Vec::with_capacity(alloc, values.len())?;
    for value in values {
        lines.push(Timeline::open(alloc, *value)?)?;
    }
    Ok(lines)
}
