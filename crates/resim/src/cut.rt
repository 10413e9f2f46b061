//! The run up to an earlier horizon.

ghost use Rattle.std.specs.Prelude.{◌≡◌, ◌≤◌, ℕ, IfNone, IfOk, IfSome, OnOk};
ghost use Rattle.gatestep.specs.Step.{Evaluation, State};
ghost use Rattle.waveform.specs.Timelines.{entries_until};
ghost use Rattle.scratch.specs.kept.Run.{IsRun};
ghost use Rattle.resim.specs.kept.Cuts.{AreCut};

use design::Design;
use fourstate::Value;
use gatestep::Driver;
use std::alloc::{AllocError, Global};
use waveform::{Run, Sample, Timeline, laws};

/// The run of the design with an earlier horizon, in time units, from its run. What has no entry after that horizon is
/// shared. It fails where memory runs out.
pub fn shorten(alloc: Global, design: &Design, run: &Run, horizon: u64) -> Result<Run, AllocError>
    requires { horizon ≤ design.now.horizon }
    ensures { IfOk result (λ short. (answer : Evaluation → ℕ → State) → IsRun answer design.now run.now →
        IsRun answer (record design.now { horizon = horizon }) short) }
{
    laws::cut_of_changes::<Value>();
    laws::cut_of_changes::<Driver>();
    let mut short = run.try_clone()?;
    short.set_horizon(horizon);
    cut_waves(alloc, design, run, &mut short, horizon)?;
    cut_traces(alloc, design, run, &mut short, horizon)?;
    Ok(short)
}

/// Cuts the wave of each net. Where an allocation was refused, which waves are cut is not known.
fn cut_waves(
    alloc: Global,
    design: &Design,
    run: &Run,
    short: &mut Run,
    horizon: u64,
) -> Result<(), AllocError>
    requires { short.old.waves ≡ run.now.waves }
    ensures waves { OnOk result (AreCut horizon design.now.nets run.now.waves short.new.waves) }
    ensures traces { short.new.traces ≡ short.old.traces }
    ensures horizon { short.new.horizon ≡ short.old.horizon }
{
    for place in 0..design.net_count() {
        let key = design.net_key_at(place).number();
        let Some(wave) = run.wave(key) else {
            continue;
        };
        if let Some(cut) = cut_line::<Value>(alloc, wave, horizon)? {
            short.put_wave(key, cut)?;
        }
    }
    Ok(())
}

/// Cuts the trace of each gate. Where an allocation was refused, which traces are cut is not known.
fn cut_traces(
    alloc: Global,
    design: &Design,
    run: &Run,
    short: &mut Run,
    horizon: u64,
) -> Result<(), AllocError>
    requires { short.old.traces ≡ run.now.traces }
    ensures traces { OnOk result (AreCut horizon design.now.gates run.now.traces short.new.traces) }
    ensures waves { short.new.waves ≡ short.old.waves }
    ensures horizon { short.new.horizon ≡ short.old.horizon }
{
    for place in 0..design.gate_count() {
        let key = design.gate_key_at(place).number();
        let Some(trace) = run.trace(key) else {
            continue;
        };
        if let Some(cut) = cut_line::<Driver>(alloc, trace, horizon)? {
            short.put_trace(key, cut)?;
        }
    }
    Ok(())
}

/// The timeline up to a moment, where it has entries after it.
fn cut_line<V: Sample>(
    alloc: Global,
    line: &Timeline<V>,
    horizon: u64,
) -> Result<Option<Timeline<V>>, AllocError>
    ensures cut { IfOk result (λ o. IfSome o (λ cut. cut ≡ entries_until line.now horizon)) }
    ensures whole { IfOk result (λ o. IfNone o (entries_until line.now horizon ≡ line.now)) }
{
    let (last, _) = line.last();
    if last <= horizon {
        return Ok(None);
    }
    let cut = line.fork(alloc, horizon, 0)?;
    Ok(Some(cut))
}
