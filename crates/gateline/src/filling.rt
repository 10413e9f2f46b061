//! Waves of nets, each found when it is first read.

ghost use Rattle.std.specs.Prelude.{◌≡◌, ◌<◌, [], ◌∷◌, true, Some, length, map, slice_get, IfSome, OnErr, OnOk};
ghost use Rattle.design.specs.Keys.{netlist};
ghost use Rattle.design.specs.kept.Places.{driver_places};
ghost use Rattle.gateline.specs.kept.Known.{AreFound, AreKnown, AreMarked, AreSupplied, AreTraced, IsMarked, KeepsMarks};
ghost use Rattle.scratch.specs.Run.{wave_of};
ghost use Rattle.scratch.specs.kept.Kept.{IsWiring};
ghost use Rattle.scratch.specs.kept.Run.{trace_of};

use crate::finding::find_wave;
use chunked::Shared;
use design::Design;
use gatestep::Stepper;
use scratch::{Cell, Input, Wiring};
use std::alloc::{AllocError, Global};
use waveform::{Trace, Wave};

/// Finds the wave of the net at a place in the order of the design's nets, if it is not found yet, where the traces of all its
/// drivers are found. It fails where memory runs out, and then nothing has changed.
pub fn find_net<S: Stepper>(
    alloc: Global,
    design: &Design,
    wiring: &Wiring,
    traces: &[Shared<Trace>],
    place: usize,
    found: &mut [bool],
    waves: &mut [Shared<Wave>],
) -> Result<(), AllocError>
    requires wired { IsWiring (netlist design.now) wiring.now }
    requires there { place < length (netlist design.now).nets }
    requires traced { IfSome (slice_get (netlist design.now).nets place) (λ n. AreTraced S.answer (netlist design.now) traces.now (driver_places (netlist design.now).gates n.name)) }
    requires marks { length found.old ≡ length (netlist design.now).nets }
    requires lines { length waves.old ≡ length (netlist design.now).nets }
    requires found { AreFound S.answer (netlist design.now) found.old waves.old }
    ensures found { AreFound S.answer (netlist design.now) found.new waves.new }
    ensures here { OnOk result (slice_get found.new place ≡ Some true) }
    ensures kept { KeepsMarks found.old found.new }
    ensures marks_stay { OnErr result (found.new ≡ found.old) }
    ensures waves_stay { OnErr result (waves.new ≡ waves.old) }
{
    if found[place] {
        return Ok(());
    }
    let wave = find_wave::<S>(alloc, design, wiring, traces, place)?;
    waves[place] = wave.shared(alloc)?;
    found[place] = true;
    Ok(())
}

/// Finds the wave that an input reads, if it reads one that is not found yet, where the traces of all that drives its net are
/// found. It fails where memory runs out, and then nothing has changed.
pub fn find_input<S: Stepper>(
    alloc: Global,
    design: &Design,
    wiring: &Wiring,
    traces: &[Shared<Trace>],
    input: Input,
    found: &mut [bool],
    waves: &mut [Shared<Wave>],
) -> Result<(), AllocError>
    requires wired { IsWiring (netlist design.now) wiring.now }
    requires supplied { AreSupplied S.answer (netlist design.now) traces.now (input ∷ []) }
    requires marks { length found.old ≡ length (netlist design.now).nets }
    requires lines { length waves.old ≡ length (netlist design.now).nets }
    requires found { AreFound S.answer (netlist design.now) found.old waves.old }
    ensures found { AreFound S.answer (netlist design.now) found.new waves.new }
    ensures known { OnOk result (IsMarked found.new input) }
    ensures kept { KeepsMarks found.old found.new }
    ensures marks_stay { OnErr result (found.new ≡ found.old) }
    ensures waves_stay { OnErr result (waves.new ≡ waves.old) }
{
    match input {
        Input::At(place) if (place as usize) < waves.len() => find_net::<S>(
            alloc,
            design,
            wiring,
            traces,
            place as usize,
            found,
            waves,
        ),
        _ => Ok(()),
    }
}

/// Finds the waves that the inputs of a gate read, those that are not found yet, where the traces of all that drives their nets are
/// found. It fails where memory runs out; the waves that were found by then stay.
pub fn find_inputs<S: Stepper>(
    alloc: Global,
    design: &Design,
    wiring: &Wiring,
    traces: &[Shared<Trace>],
    cell: &Cell,
    found: &mut [bool],
    waves: &mut [Shared<Wave>],
) -> Result<(), AllocError>
    requires wired { IsWiring (netlist design.now) wiring.now }
    requires supplied { AreSupplied S.answer (netlist design.now) traces.now cell.now.inputs }
    requires marks { length found.old ≡ length (netlist design.now).nets }
    requires lines { length waves.old ≡ length (netlist design.now).nets }
    requires found { AreFound S.answer (netlist design.now) found.old waves.old }
    ensures found { AreFound S.answer (netlist design.now) found.new waves.new }
    ensures marked { OnOk result (AreMarked found.new cell.now.inputs) }
    ensures known { OnOk result (AreKnown S.answer (netlist design.now) waves.new cell.now.inputs) }
    ensures kept { KeepsMarks found.old found.new }
{
    for input in cell.inputs() {
        find_input::<S>(alloc, design, wiring, traces, input.get(), found, waves)?;
    }
    Ok(())
}

/// Finds the waves of all nets that are not found yet, where the traces of all gates are found. It fails where memory runs out.
pub fn find_rest<S: Stepper>(
    alloc: Global,
    design: &Design,
    wiring: &Wiring,
    traces: &[Shared<Trace>],
    found: &mut [bool],
    waves: &mut [Shared<Wave>],
) -> Result<(), AllocError>
    requires wired { IsWiring (netlist design.now) wiring.now }
    requires traced { traces.now ≡ map (trace_of S.answer (netlist design.now)) (netlist design.now).gates }
    requires marks { length found.old ≡ length (netlist design.now).nets }
    requires lines { length waves.old ≡ length (netlist design.now).nets }
    requires found { AreFound S.answer (netlist design.now) found.old waves.old }
    ensures { OnOk result (waves.new ≡ map (wave_of S.answer (netlist design.now)) (netlist design.now).nets) }
{
    for place in 0..design.net_count() {
        find_net::<S>(alloc, design, wiring, traces, place, found, waves)?;
    }
    Ok(())
}
