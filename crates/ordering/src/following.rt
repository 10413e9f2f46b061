//! Gates at some places, followed one after another.

ghost use Rattle.std.specs.Option.{ForSome};
ghost use Rattle.waveform.specs.Changes.{wave_changes_below};
ghost use Rattle.waveform.specs.kept.Currents.{currents};
ghost use Rattle.std.specs.Prelude.{◌≡◌, ◌<◌, ◌++◌, ℕ, true, suc, All, length, slice_get, slice_set, IfOk, IfSome, OnOk, OnErr};
ghost use Rattle.design.specs.Keys.{netlist};
ghost use Rattle.gateline.specs.kept.Known.{AreFound, AreKnown, AreMarked, AreSupplied, IsTraced, KeepsMarks};
ghost use Rattle.scratch.specs.Asked.{IsAskedInPart};
ghost use Rattle.scratch.specs.kept.Kept.{IsWiring};
ghost use Rattle.scratch.specs.kept.Places.{has};
ghost use Rattle.scratch.specs.kept.Run.{trace_of};
ghost use Rattle.gatestep.specs.Step.{advance};
ghost use Rattle.ordering.specs.kept.Come.{IsReady, IsWaveAt, StayTraced};
ghost use Rattle.ordering.specs.kept.Begins.{IsBegin};
ghost use Rattle.ordering.specs.kept.Earlier.{begin_after};
ghost use Rattle.ordering.specs.kept.Gates.{gate_work_from};
ghost use Rattle.ordering.specs.kept.Lines.{Fit};
ghost use Rattle.ordering.specs.kept.OldRuns.{wanted_at};
ghost use Rattle.ordering.specs.kept.Order.{order_work_from};

use crate::ahead::{Ahead, known_at};
use crate::earlier::{EarlierRun, former_of};
use crate::lines::Lines;
use crate::old_run::line_of;
use chunked::Shared;
use design::Design;
use gateline::{
    Along, KnownLine, Line, Start, find_inputs, find_known, follow_gate, is_lone_wave, lone_net,
};
use gatestep::{Serial, Stepper};
use rundiff::OldRun;
use scratch::{Cell, Wiring};
use std::alloc::{AllocError, Global};
use waveform::{Trace, Wave};

/// From where on a design is run, and beside what.
#[derive(Clone, Copy)]
pub struct Begin<'a, 'b, 'c> {
    /// A run of the design up to an earlier horizon, if there is one, from whose end on it is run; else from moment 0 on.
    pub earlier: Option<EarlierRun<'a>>,
    /// The run of an old design, if it is run beside one.
    pub old: Option<&'b OldRun<'c>>,
    /// What threads share that follow its gates ahead, if there are such.
    pub ahead: Option<&'a Ahead>,
}

/// Finds the waves that a gate reads, those that are not found yet, where the traces of all that drives their nets are found. It
/// fails where memory runs out; the waves that were found by then stay.
fn find_read<S: Stepper>(
    alloc: Global,
    design: &Design,
    wiring: &Wiring,
    cell: &Cell,
    lines: &mut Lines,
) -> Result<(), AllocError>
    requires wired { IsWiring (netlist design.now) wiring.now }
    requires supplied { AreSupplied S.answer (netlist design.now) lines.old.traces.items cell.now.inputs }
    requires fit { Fit (netlist design.now) lines.old }
    requires found { AreFound S.answer (netlist design.now) lines.old.found.items lines.old.waves.items }
    ensures fit { Fit (netlist design.now) lines.new }
    ensures found { AreFound S.answer (netlist design.now) lines.new.found.items lines.new.waves.items }
    ensures marked { OnOk result (AreMarked lines.new.found.items cell.now.inputs) }
    ensures known { OnOk result (AreKnown S.answer (netlist design.now) lines.new.waves.items cell.now.inputs) }
    ensures kept { KeepsMarks lines.old.found.items lines.new.found.items }
    ensures traces { lines.new.traces ≡ lines.old.traces }
{
    find_inputs::<S>(
        alloc,
        design,
        wiring,
        lines.traces.as_slice(),
        cell,
        lines.found.as_mut_slice(),
        lines.waves.as_mut_slice(),
    )
}

/// The line of the gate at a place in the order of the gates, where the waves that it reads are found. It fails where memory runs
/// out; then what was asked is a part of what is asked of the gate.
fn follow_known<S: Stepper>(
    alloc: Global,
    design: &Design,
    wiring: &Wiring,
    begin: Begin,
    place: usize,
    lines: &Lines,
    stepper: &mut S,
) -> Result<Line, AllocError>
    requires none_lost { S.losses stepper.old ≡ 0 }
    requires wired { IsWiring (netlist design.now) wiring.now }
    requires begin { IsBegin S.answer design.now begin }
    requires there { place < length (netlist design.now).gates }
    requires known { IfSome (slice_get wiring.now.cells.items place) (λ cell. AreKnown S.answer (netlist design.now) lines.now.waves.items cell.inputs) }
    ensures trace { IfOk result (λ line. IfSome (slice_get (netlist design.now).gates place) (λ g. line.trace ≡ trace_of S.answer (netlist design.now) g)) }
    ensures wave { IfOk result (λ line. ForSome line.wave (λ wave. wave ≡ wave_changes_below (currents line.trace) (suc (netlist design.now).horizon))) }
    ensures asked { OnOk result (IfSome (slice_get (netlist design.now).gates place) (λ g. S.asked stepper.new ≡ S.asked stepper.old
        ++ gate_work_from S.answer (netlist design.now) (wanted_at begin.entry.old (netlist design.now) place g) g (begin_after begin.entry.earlier) (suc (netlist design.now).horizon))) }
    ensures part { OnErr result (IfSome (slice_get (netlist design.now).gates place) (λ g. IsAskedInPart (S.asked stepper.old) (S.asked stepper.new)
        (gate_work_from S.answer (netlist design.now) (wanted_at begin.entry.old (netlist design.now) place g) g (begin_after begin.entry.earlier) (suc (netlist design.now).horizon)))) }
    ensures lost { S.losses stepper.new ≡ S.losses stepper.old }
{
    let along = Along {
        waves: lines.waves.as_slice(),
        table: &lines.table,
    };
    let start = Start {
        former: former_of::<S>(design, begin.earlier, place),
        beside: line_of(begin.old, place),
        known: known_at(begin.ahead, place),
    };
    follow_gate(alloc, design, wiring, along, place, start, stepper)
}

/// Puts the wave of the net that the gate at a place drives alone, if there is such a net and a wave comes with the line, and gives the
/// line's trace.
fn put_driven<S: Stepper>(
    design: &Design,
    wiring: &Wiring,
    place: usize,
    line: Line,
    lines: &mut Lines,
) -> Shared<Trace>
    requires wired { IsWiring (netlist design.now) wiring.now }
    requires there { place < length (netlist design.now).gates }
    requires trace { IfSome (slice_get (netlist design.now).gates place) (λ g. line.trace ≡ trace_of S.answer (netlist design.now) g) }
    requires wave { ForSome line.wave (λ wave. wave ≡ wave_changes_below (currents line.trace) (suc (netlist design.now).horizon)) }
    requires fit { Fit (netlist design.now) lines.old }
    requires found { AreFound S.answer (netlist design.now) lines.old.found.items lines.old.waves.items }
    ensures trace { result ≡ line.trace }
    ensures fit { Fit (netlist design.now) lines.new }
    ensures found { AreFound S.answer (netlist design.now) lines.new.found.items lines.new.waves.items }
    ensures traces { lines.new.traces ≡ lines.old.traces }
{
    let Line { trace, wave } = line;
    let Some(wave) = wave else {
        return trace;
    };
    let Some(net) = lone_net(wiring, place) else {
        return trace;
    };
    is_lone_wave::<S>(
        design,
        wiring,
        net as usize,
        place,
        trace.value(),
        wave.value(),
    );
    put_wave::<S>(design, net, wave, lines);
    trace
}

/// Puts the wave of the net at a place where it belongs.
fn put_wave<S: Stepper>(design: &Design, net: u32, wave: Shared<Wave>, lines: &mut Lines)
    requires wave { IsWaveAt S.answer (netlist design.now) (net, wave) }
    requires fit { Fit (netlist design.now) lines.old }
    requires found { AreFound S.answer (netlist design.now) lines.old.found.items lines.old.waves.items }
    ensures fit { Fit (netlist design.now) lines.new }
    ensures found { AreFound S.answer (netlist design.now) lines.new.found.items lines.new.waves.items }
    ensures traces { lines.new.traces ≡ lines.old.traces }
{
    let _design = design;
    lines.waves[net as usize] = wave;
    lines.found[net as usize] = true;
}

/// The line of the gate at a place in the order of the gates, for other threads, where the traces of all that drive what it reads are
/// found. It fails where memory runs out.
pub fn find_ahead(
    alloc: Global,
    design: &Design,
    wiring: &Wiring,
    begin: Begin,
    place: usize,
    lines: &mut Lines,
) -> Result<KnownLine, AllocError>
    requires wired { IsWiring (netlist design.now) wiring.now }
    requires begin { IsBegin advance design.now begin }
    requires ready { IsReady advance (netlist design.now) wiring.now lines.old.traces.items place }
    requires fit { Fit (netlist design.now) lines.old }
    requires found { AreFound advance (netlist design.now) lines.old.found.items lines.old.waves.items }
    ensures fit { Fit (netlist design.now) lines.new }
    ensures found { AreFound advance (netlist design.now) lines.new.found.items lines.new.waves.items }
    ensures traces { lines.new.traces ≡ lines.old.traces }
{
    find_read::<Serial>(alloc, design, wiring, &wiring.cells[place], lines)?;
    let along = Along {
        waves: lines.waves.as_slice(),
        table: &lines.table,
    };
    let former = former_of::<Serial>(design, begin.earlier, place);
    find_known(alloc, design, wiring, along, place, former)
}

/// Follows the gate at a place in the order of the gates, or takes its line from who followed it ahead, and finds before each wave that
/// it reads and that is not found yet. It fails where memory runs out; then what was asked is a part of what is asked of the gate.
pub fn follow_one<S: Stepper>(
    alloc: Global,
    design: &Design,
    wiring: &Wiring,
    begin: Begin,
    place: usize,
    lines: &mut Lines,
    stepper: &mut S,
) -> Result<(), AllocError>
    requires none_lost { S.losses stepper.old ≡ 0 }
    requires wired { IsWiring (netlist design.now) wiring.now }
    requires begin { IsBegin S.answer design.now begin }
    requires there { place < length (netlist design.now).gates }
    requires supplied { IfSome (slice_get wiring.now.cells.items place) (λ cell. AreSupplied S.answer (netlist design.now) lines.old.traces.items cell.inputs) }
    requires fit { Fit (netlist design.now) lines.old }
    requires found { AreFound S.answer (netlist design.now) lines.old.found.items lines.old.waves.items }
    ensures fit { OnOk result (Fit (netlist design.now) lines.new) }
    ensures found { OnOk result (AreFound S.answer (netlist design.now) lines.new.found.items lines.new.waves.items) }
    ensures trace { OnOk result (IfSome (slice_get (netlist design.now).gates place) (λ g. lines.new.traces.items ≡ slice_set lines.old.traces.items place (trace_of S.answer (netlist design.now) g))) }
    ensures asked { OnOk result (IfSome (slice_get (netlist design.now).gates place) (λ g. S.asked stepper.new ≡ S.asked stepper.old
        ++ gate_work_from S.answer (netlist design.now) (wanted_at begin.entry.old (netlist design.now) place g) g (begin_after begin.entry.earlier) (suc (netlist design.now).horizon))) }
    ensures part { OnErr result (IfSome (slice_get (netlist design.now).gates place) (λ g. IsAskedInPart (S.asked stepper.old) (S.asked stepper.new)
        (gate_work_from S.answer (netlist design.now) (wanted_at begin.entry.old (netlist design.now) place g) g (begin_after begin.entry.earlier) (suc (netlist design.now).horizon)))) }
    ensures lost { S.losses stepper.new ≡ S.losses stepper.old }
{
    find_read::<S>(alloc, design, wiring, &wiring.cells[place], lines)?;
    let line = follow_known(alloc, design, wiring, begin, place, lines, stepper)?;
    let trace = put_driven::<S>(design, wiring, place, line, lines);
    lines.traces[place] = trace;
    Ok(())
}

/// Follows the gates at these places, which wait for none of each other, one after another. It fails where memory runs out; then
/// what was asked is a part of what is asked of these gates.
pub fn follow_here<S: Stepper>(
    alloc: Global,
    design: &Design,
    wiring: &Wiring,
    begin: Begin,
    places: &[u32],
    lines: &mut Lines,
    stepper: &mut S,
) -> Result<(), AllocError>
    requires none_lost { S.losses stepper.old ≡ 0 }
    requires wired { IsWiring (netlist design.now) wiring.now }
    requires begin { IsBegin S.answer design.now begin }
    requires ready { All (IsReady S.answer (netlist design.now) wiring.now lines.old.traces.items) places.now }
    requires fit { Fit (netlist design.now) lines.old }
    requires found { AreFound S.answer (netlist design.now) lines.old.found.items lines.old.waves.items }
    ensures fit { OnOk result (Fit (netlist design.now) lines.new) }
    ensures found { OnOk result (AreFound S.answer (netlist design.now) lines.new.found.items lines.new.waves.items) }
    ensures traced { OnOk result ((p : ℕ) → has p places.now ≡ true → IsTraced S.answer (netlist design.now) lines.new.traces.items p) }
    ensures kept { OnOk result (StayTraced S.answer (netlist design.now) lines.old.traces.items lines.new.traces.items) }
    ensures asked { OnOk result (S.asked stepper.new ≡ S.asked stepper.old ++ order_work_from S.answer (netlist design.now) begin.entry.old (begin_after begin.entry.earlier) (suc (netlist design.now).horizon) places.now) }
    ensures part { OnErr result (IsAskedInPart (S.asked stepper.old) (S.asked stepper.new) (order_work_from S.answer (netlist design.now) begin.entry.old (begin_after begin.entry.earlier) (suc (netlist design.now).horizon) places.now)) }
    ensures lost { S.losses stepper.new ≡ S.losses stepper.old }
{
    for place in places {
        follow_one(
            alloc,
            design,
            wiring,
            begin,
            *place as usize,
            lines,
            stepper,
        )?;
    }
    Ok(())
}
