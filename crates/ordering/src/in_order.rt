//! The gates of an order, followed one after another.

ghost use Rattle.std.specs.Prelude.{◌≡◌, ◌≢◌, ◌++◌, ℕ, [], true, suc, All, Some, map, slice_get, IfOk, OnOk, OnErr};
ghost use Rattle.design.specs.Keys.{netlist};
ghost use Rattle.gateline.specs.kept.Known.{AreFound, IsTraced};
ghost use Rattle.scratch.specs.Asked.{IsAskedInPart};
ghost use Rattle.scratch.specs.Run.{wave_of};
ghost use Rattle.scratch.specs.kept.Kept.{IsWiring};
ghost use Rattle.scratch.specs.kept.Places.{has};
ghost use Rattle.scratch.specs.kept.Run.{IsRun, trace_of};
ghost use Rattle.ordering.specs.kept.Come.{IsReady, StayTraced};
ghost use Rattle.ordering.specs.kept.Begins.{IsBegin};
ghost use Rattle.ordering.specs.kept.Earlier.{begin_after};
ghost use Rattle.ordering.specs.kept.Lines.{Fit};
ghost use Rattle.ordering.specs.kept.Order.{is_order, may_follow, order_work_from};

use crate::ahead::Ahead;
use crate::following::{Begin, follow_here};
use crate::helping::let_help;
use crate::lines::{Lines, open_lines};
use design::Design;
use gateline::find_rest;
use gatestep::Stepper;
use scratch::{Wiring, run_of_lines};
use std::alloc::{AllocError, Global};
use waveform::Run;

/// Follows the gates of an order one after another, and finds each wave when it is first read. It fails where memory runs out; then
/// what was asked is a part of what is asked of these gates.
fn follow_each<S: Stepper>(
    alloc: Global,
    design: &Design,
    wiring: &Wiring,
    begin: Begin,
    order: &[u32],
    lines: &mut Lines,
    stepper: &mut S,
) -> Result<(), AllocError>
    requires none_lost { S.losses stepper.old ≡ 0 }
    requires wired { IsWiring (netlist design.now) wiring.now }
    requires begin { IsBegin S.answer design.now begin }
    requires follow { may_follow (netlist design.now) [] order.now ≡ true }
    requires fit { Fit (netlist design.now) lines.old }
    requires found { AreFound S.answer (netlist design.now) lines.old.found.items lines.old.waves.items }
    ensures fit { OnOk result (Fit (netlist design.now) lines.new) }
    ensures found { OnOk result (AreFound S.answer (netlist design.now) lines.new.found.items lines.new.waves.items) }
    ensures traced { OnOk result ((p : ℕ) → has p order.now ≡ true → IsTraced S.answer (netlist design.now) lines.new.traces.items p) }
    ensures asked { OnOk result (S.asked stepper.new ≡ S.asked stepper.old ++ order_work_from S.answer (netlist design.now) begin.entry.old (begin_after begin.entry.earlier) (suc (netlist design.now).horizon) order.now) }
    ensures part { OnErr result (IsAskedInPart (S.asked stepper.old) (S.asked stepper.new) (order_work_from S.answer (netlist design.now) begin.entry.old (begin_after begin.entry.earlier) (suc (netlist design.now).horizon) order.now)) }
    ensures lost { S.losses stepper.new ≡ S.losses stepper.old }
{
    let mut first = 0usize;
    while first < order.len() {
        let end = first + 1;
        let places = &order[first..end];
        follow_here(alloc, design, wiring, begin, places, lines, stepper)?;
        first = end;
    }
    Ok(())
}

/// Finds the trace of each gate, in this order, and the wave of each net. It fails where memory runs out; then what was asked is a
/// part of what is asked of the gates in this order.
fn fill_lines<S: Stepper>(
    alloc: Global,
    design: &Design,
    wiring: &Wiring,
    begin: Begin,
    order: &[u32],
    lines: &mut Lines,
    stepper: &mut S,
) -> Result<(), AllocError>
    requires none_lost { S.losses stepper.old ≡ 0 }
    requires wired { IsWiring (netlist design.now) wiring.now }
    requires begin { IsBegin S.answer design.now begin }
    requires order { is_order (netlist design.now) order.now ≡ true }
    requires fit { Fit (netlist design.now) lines.old }
    requires none { (m : ℕ) → slice_get lines.old.found.items m ≢ Some true }
    ensures waves { OnOk result (lines.new.waves.items ≡ map (wave_of S.answer (netlist design.now)) (netlist design.now).nets) }
    ensures traces { OnOk result (lines.new.traces.items ≡ map (trace_of S.answer (netlist design.now)) (netlist design.now).gates) }
    ensures asked { OnOk result (S.asked stepper.new ≡ S.asked stepper.old ++ order_work_from S.answer (netlist design.now) begin.entry.old (begin_after begin.entry.earlier) (suc (netlist design.now).horizon) order.now) }
    ensures part { OnErr result (IsAskedInPart (S.asked stepper.old) (S.asked stepper.new) (order_work_from S.answer (netlist design.now) begin.entry.old (begin_after begin.entry.earlier) (suc (netlist design.now).horizon) order.now)) }
    ensures lost { S.losses stepper.new ≡ S.losses stepper.old }
{
    follow_each(alloc, design, wiring, begin, order, lines, stepper)?;
    find_rest::<S>(
        alloc,
        design,
        wiring,
        lines.traces.as_slice(),
        lines.found.as_mut_slice(),
        lines.waves.as_mut_slice(),
    )
}

/// The run of the design by this stepper, gate after gate in this order, by this beginning. It fails where memory runs out; then what was
/// asked is a part of what is asked of the gates in this order.
fn run_along<S: Stepper>(
    alloc: Global,
    design: &Design,
    wiring: &Wiring,
    begin: Begin,
    order: &[u32],
    stepper: &mut S,
) -> Result<Run, AllocError>
    requires none_lost { S.losses stepper.old ≡ 0 }
    requires wired { IsWiring (netlist design.now) wiring.now }
    requires begin { IsBegin S.answer design.now begin }
    requires order { is_order (netlist design.now) order.now ≡ true }
    ensures run { IfOk result (IsRun S.answer design.now) }
    ensures asked { OnOk result (S.asked stepper.new ≡ S.asked stepper.old ++ order_work_from S.answer (netlist design.now) begin.entry.old (begin_after begin.entry.earlier) (suc (netlist design.now).horizon) order.now) }
    ensures part { OnErr result (IsAskedInPart (S.asked stepper.old) (S.asked stepper.new) (order_work_from S.answer (netlist design.now) begin.entry.old (begin_after begin.entry.earlier) (suc (netlist design.now).horizon) order.now)) }
    ensures lost { S.losses stepper.new ≡ S.losses stepper.old }
{
    let mut lines = open_lines(alloc, design)?;
    fill_lines(alloc, design, wiring, begin, order, &mut lines, stepper)?;
    let Lines { waves, traces, .. } = lines;
    run_of_lines::<S>(alloc, design, waves, traces)
}

/// So many points an input has at least, on average, where threads are started for a run (own): where gates are asked less often, to take
/// over what a thread found costs about as much as to follow the gate.
const LEAST_POINTS: usize = 64;

/// So many evaluations a run has at least, where threads are started for it (own). A gate has about as many as an input has points.
const LEAST_EVALUATIONS: usize = 262_144;

/// Whether gates are asked so often in a run of the design that threads that follow them ahead are worth it.
fn is_long(design: &Design) -> bool {
    let mut inputs = 0usize;
    let mut points = 0usize;
    for place in 0..design.net_count() {
        let net = design.net_at(place);
        if net.is_input() {
            inputs = inputs.saturating_add(1);
            points = points.saturating_add(net.point_count());
        }
    }
    let each = points / inputs.max(1);
    each >= LEAST_POINTS && design.gate_count().saturating_mul(each) >= LEAST_EVALUATIONS
}

/// The run of the design by this stepper, gate after gate in this order, from moment 0 on or from the end of an earlier run; beside
/// an old run each gate is asked only where it had another task there. Where the stepper does jobs in threads, these follow gates
/// ahead. It fails where memory runs out; then what was asked is a part of what is asked of the gates in this order.
pub fn run_in_order<S: Stepper>(
    alloc: Global,
    design: &Design,
    wiring: &Wiring,
    begin: Begin,
    order: &[u32],
    stepper: &mut S,
) -> Result<Run, AllocError>
    requires none_lost { S.losses stepper.old ≡ 0 }
    requires wired { IsWiring (netlist design.now) wiring.now }
    requires begin { IsBegin S.answer design.now begin }
    requires order { is_order (netlist design.now) order.now ≡ true }
    ensures run { IfOk result (IsRun S.answer design.now) }
    ensures asked { OnOk result (S.asked stepper.new ≡ S.asked stepper.old ++ order_work_from S.answer (netlist design.now) begin.entry.old (begin_after begin.entry.earlier) (suc (netlist design.now).horizon) order.now) }
    ensures part { OnErr result (IsAskedInPart (S.asked stepper.old) (S.asked stepper.new) (order_work_from S.answer (netlist design.now) begin.entry.old (begin_after begin.entry.earlier) (suc (netlist design.now).horizon) order.now)) }
    ensures lost { S.losses stepper.new ≡ S.losses stepper.old }
{
    if begin.old.is_some() || !stepper.takes_jobs() || !is_long(design) {
        return run_along(alloc, design, wiring, begin, order, stepper);
    }
    let ahead = Ahead::open(alloc, design.gate_count())?;
    let begin = Begin {
        earlier: begin.earlier,
        old: begin.old,
        ahead: Some(&ahead),
    };
    let_help(alloc, design, wiring, begin, order, stepper)?;
    run_along(alloc, design, wiring, begin, order, stepper)
}
