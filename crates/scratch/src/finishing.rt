//! The run that its lines make.

ghost use Rattle.std.specs.Prelude.{◌≡◌, map, IfOk};
ghost use Rattle.design.specs.Keys.{netlist};
ghost use Rattle.scratch.specs.Run.{wave_of};
ghost use Rattle.scratch.specs.kept.Run.{IsRun, trace_of};

use crate::recording::SharedRecording;
use chunked::Shared;
use design::Design;
use gatestep::Stepper;
use std::alloc::{AllocError, Global};
use waveform::{Run, Trace, Wave};

/// The run of the design, from the wave of each net, in the order of the nets, and the trace of each gate's driver, in the order
/// of the gates.
pub fn run_of_lines<S: Stepper>(
    alloc: Global,
    design: &Design,
    waves: Vec<Shared<Wave>>,
    traces: Vec<Shared<Trace>>,
) -> Result<Run, AllocError>
    requires waves { waves.items ≡ map (wave_of S.answer (netlist design.now)) (netlist design.now).nets }
    requires traces { traces.items ≡ map (trace_of S.answer (netlist design.now)) (netlist design.now).gates }
    ensures { IfOk result (IsRun S.answer design.now) }
{
    let recording = SharedRecording { waves, traces };
    let run = recording.finish(alloc, design)?;
    Ok(run)
}

/// The same waves, to be shared with others. It fails where memory runs out.
pub fn share_waves(alloc: Global, waves: Vec<Wave>) -> Result<Vec<Shared<Wave>>, AllocError>
    ensures { IfOk result (λ shared. shared.items ≡ waves.items) }
{
    let mut shared = Vec::with_capacity(alloc, waves.len())?;
    for wave in waves {
        shared.push(wave.shared(alloc)?)?;
    }
    Ok(shared)
}

/// The same traces, to be shared with others. It fails where memory runs out.
pub fn share_traces(alloc: Global, traces: Vec<Trace>) -> Result<Vec<Shared<Trace>>, AllocError>
    ensures { IfOk result (λ shared. shared.items ≡ traces.items) }
{
    let mut shared = Vec::with_capacity(alloc, traces.len())?;
    for trace in traces {
        shared.push(Shared::new(alloc, trace)?)?;
    }
    Ok(shared)
}
