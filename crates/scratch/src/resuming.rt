//! What stands after the last moment of a run, read from the run.

ghost use Rattle.std.specs.Prelude.{◌≡◌, ◌<◌, ◌-◌, ℕ, suc, map, length, IfOk, Some, option_map, slice_get};
ghost use Rattle.design.specs.Keys.{netlist};
ghost use Rattle.gatestep.specs.Step.{Evaluation, State, due, initial};
ghost use Rattle.scratch.specs.kept.Kept.{IsWiring};
ghost use Rattle.scratch.specs.kept.Recorded.{recorded_below};
ghost use Rattle.scratch.specs.Run.{value};
ghost use Rattle.scratch.specs.kept.Run.{IsRun, IsSomeRun, trace_of};
ghost use Rattle.scratch.specs.kept.Stands.{Stands};
ghost use Rattle.waveform.specs.Timelines.{value_by};

use crate::engine::Engine;
use crate::noting::{list_events, list_points};
use crate::recording::Recording;
use crate::tallies::Tallies;
use crate::waves::wave_at;
use crate::wiring::Wiring;
use design::Design;
use fourstate::Value;
use gatestep::{Driver, Stepper};
use std::alloc::{AllocError, Global};
use waveform::{Run, Trace, Wave, laws};

/// For how many entries more there is room in a line that goes on (own).
const ROOM: usize = 8;

/// What stands after the last moment of the run of a design. It shares nothing with the run.
pub fn resume<S: Stepper>(
    alloc: Global,
    design: &Design,
    wiring: &Wiring,
    run: &Run,
) -> Result<Engine, AllocError>
    requires wired { IsWiring (netlist design.now) wiring.now }
    requires run { IsRun S.answer design.now run.now }
    ensures { IfOk result (λ engine. Stands S.answer (netlist design.now) engine (suc (netlist design.now).horizon)) }
{
    design.lawful();
    laws::value_of_changes::<Value>();
    laws::value_of_changes::<Driver>();
    let horizon = design.horizon();
    let recording = copy_lines::<S>(alloc, design, wiring, run)?;
    let values = last_values::<S>(alloc, design, run)?;
    let states = last_states(alloc, recording.traces.as_slice(), horizon)?;
    let events = list_events(alloc, states.as_slice())?;
    let points = list_points(alloc, design, horizon)?;
    let tallies = Tallies::count(alloc, design, wiring, states.as_slice())?;
    Ok(Engine::new(alloc, states, values, recording, events, points, tallies))
}

/// The value of each net at the horizon.
fn last_values<S: Stepper>(
    alloc: Global,
    design: &Design,
    run: &Run,
) -> Result<Vec<Value>, AllocError>
    requires run { IsRun S.answer design.now run.now }
    ensures { IfOk result (λ values. values.items ≡ map (λ n. value S.answer (netlist design.now) n (suc (netlist design.now).horizon - 1)) (netlist design.now).nets) }
{
    laws::value_of_changes::<Value>();
    let horizon = design.horizon();
    let mut values = Vec::with_capacity(alloc, design.net_count())?;
    for place in 0..design.net_count() {
        let wave = wave_at(design, run, place);
        values.push(wave.at(horizon))?;
    }
    Ok(values)
}

/// The state that each trace has at the moment `t`.
fn last_states(alloc: Global, traces: &[Trace], t: u64) -> Result<Vec<Driver>, AllocError>
    ensures { IfOk result (λ states. states.items ≡ map (λ line. value_by due initial line t) traces.now) }
{
    let mut states = Vec::with_capacity(alloc, traces.len())?;
    for trace in traces {
        states.push(trace.at(t))?;
    }
    Ok(states)
}

/// Copies of the waves and the traces of a run, in the order of the nets and of the gates; of waves what is recorded while a run
/// goes on.
fn copy_lines<S: Stepper>(
    alloc: Global,
    design: &Design,
    wiring: &Wiring,
    run: &Run,
) -> Result<Recording, AllocError>
    requires wired { IsWiring (netlist design.now) wiring.now }
    requires run { IsRun S.answer design.now run.now }
    ensures waves { IfOk result (λ recording. recording.waves.items ≡ map (λ n. recorded_below S.answer (netlist design.now) n (suc (netlist design.now).horizon)) (netlist design.now).nets) }
    ensures traces { IfOk result (λ recording. recording.traces.items ≡ map (trace_of S.answer (netlist design.now)) (netlist design.now).gates) }
{
    let waves = copy_waves::<S>(alloc, design, wiring, run)?;
    let traces = copy_traces::<S>(alloc, design, run)?;
    Ok(Recording { waves, traces })
}

/// A copy of the wave of each net; of one to which one driver alone gives its value up to moment 0.
fn copy_waves<S: Stepper>(
    alloc: Global,
    design: &Design,
    wiring: &Wiring,
    run: &Run,
) -> Result<Vec<Wave>, AllocError>
    requires wired { IsWiring (netlist design.now) wiring.now }
    requires run { IsRun S.answer design.now run.now }
    ensures { IfOk result (λ waves. waves.items ≡ map (λ n. recorded_below S.answer (netlist design.now) n (suc (netlist design.now).horizon)) (netlist design.now).nets) }
{
    laws::cut_of_changes::<Value>();
    let horizon = design.horizon();
    let mut waves = Vec::with_capacity(alloc, design.net_count())?;
    for place in 0..design.net_count() {
        let until = match wiring.lone_drivers[place] {
            Some(_) => 0,
            None => horizon,
        };
        let wave = wave_at(design, run, place);
        waves.push(wave.fork(alloc, until, ROOM)?)?;
    }
    Ok(waves)
}

/// A copy of the trace of each gate.
fn copy_traces<S: Stepper>(
    alloc: Global,
    design: &Design,
    run: &Run,
) -> Result<Vec<Trace>, AllocError>
    requires run { IsRun S.answer design.now run.now }
    ensures { IfOk result (λ traces. traces.items ≡ map (trace_of S.answer (netlist design.now)) (netlist design.now).gates) }
{
    laws::cut_of_changes::<Driver>();
    let horizon = design.horizon();
    let mut traces = Vec::with_capacity(alloc, design.gate_count())?;
    for place in 0..design.gate_count() {
        let trace = trace_at(design, run, place);
        traces.push(trace.fork(alloc, horizon, ROOM)?)?;
    }
    Ok(traces)
}

/// The trace of the gate at a place in the order of the design's gates.
pub fn trace_at<'a>(design: &Design, run: &'a Run, place: usize) -> &'a Trace
    requires run { IsSomeRun design.now run.now }
    requires within { place < length (netlist design.now).gates }
    ensures { (answer : Evaluation → ℕ → State) → IsRun answer design.now run.now →
        option_map (trace_of answer (netlist design.now)) (slice_get (netlist design.now).gates place) ≡ Some result.now }
{
    let key = design.gate_key_at(place);
    match run.trace(key.number()) {
        Some(trace) => trace,
        None => unreachable!(),
    }
}
