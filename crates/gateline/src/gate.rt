//! One gate of a design over all of time.

ghost use Rattle.std.specs.Prelude.{◌≡◌, ◌<◌, ◌≤◌, ◌++◌, ℕ, suc, length, slice_get, IfOk, IfSome, OnOk, OnErr};
ghost use Rattle.std.specs.Option.{ForSome};
ghost use Rattle.design.specs.Keys.{netlist};
ghost use Rattle.gateline.specs.kept.Gates.{gate_work_from};
ghost use Rattle.gateline.specs.kept.Known.{AreKnown};
ghost use Rattle.gateline.specs.kept.OldLines.{IsOldLine, line_if, line_seen, wanted_by};
ghost use Rattle.gateline.specs.kept.Starts.{begin_of};
ghost use Rattle.scratch.specs.Asked.{IsAskedInPart};
ghost use Rattle.scratch.specs.Run.{state_after};
ghost use Rattle.scratch.specs.kept.Kept.{IsWiring, cell_of};
ghost use Rattle.scratch.specs.kept.Run.{trace_of};
ghost use Rattle.waveform.specs.Changes.{wave_changes_below};
ghost use Rattle.waveform.specs.kept.Changes.{trace_below};
ghost use Rattle.waveform.specs.kept.Currents.{currents};

use crate::known_line::Line;
use crate::laws::gate_by_itself;
use crate::line::{Start, follow_line};
use crate::walk::Along;
use design::Design;
use fourstate::Value;
use gatestep::{Driver, Stepper};
use scratch::Wiring;
use std::alloc::{AllocError, Global};

/// The trace of the gate at a place in the order of the design's gates up to the horizon, where the waves of all nets that it
/// reads are found. Where it was followed before up to an earlier moment it is asked of the later moments alone, and beside an old
/// run only where it had another task there. It fails where memory runs out.
pub fn follow_gate<S: Stepper>(
    alloc: Global,
    design: &Design,
    wiring: &Wiring,
    along: Along,
    place: usize,
    start: Start,
    stepper: &mut S,
) -> Result<Line, AllocError>
    requires none_lost { S.losses stepper.old ≡ 0 }
    requires wired { IsWiring (netlist design.now) wiring.now }
    requires there { place < length (netlist design.now).gates }
    requires known { IfSome (slice_get wiring.now.cells.items place) (λ cell. AreKnown S.answer (netlist design.now) along.waves.now cell.inputs) }
    requires order { ForSome start.former (λ former. former.done ≤ (netlist design.now).horizon) }
    requires trace { ForSome start.former (λ former. IfSome (slice_get (netlist design.now).gates place) (λ g.
        former.trace.now ≡ trace_below (state_after S.answer (netlist design.now) g) (suc former.done))) }
    requires beside { ForSome start.beside (λ old. IfSome (slice_get (netlist design.now).gates place) (λ g.
        IsOldLine S.answer (cell_of (netlist design.now) g) (netlist design.now).horizon (line_seen old))) }
    ensures trace { IfOk result (λ line. IfSome (slice_get (netlist design.now).gates place) (λ g. line.trace ≡ trace_of S.answer (netlist design.now) g)) }
    ensures wave { IfOk result (λ line. ForSome line.wave (λ wave. wave ≡ wave_changes_below (currents line.trace) (suc (netlist design.now).horizon))) }
    ensures asked { OnOk result (IfSome (slice_get (netlist design.now).gates place) (λ g. S.asked stepper.new ≡ S.asked stepper.old
        ++ gate_work_from S.answer (netlist design.now) (wanted_by (line_if start.entry.beside) (cell_of (netlist design.now) g).inputs) g (begin_of start.entry.former) (suc (netlist design.now).horizon))) }
    ensures part { OnErr result (IfSome (slice_get (netlist design.now).gates place) (λ g. IsAskedInPart (S.asked stepper.old) (S.asked stepper.new)
        (gate_work_from S.answer (netlist design.now) (wanted_by (line_if start.entry.beside) (cell_of (netlist design.now) g).inputs) g (begin_of start.entry.former) (suc (netlist design.now).horizon)))) }
    ensures lost { S.losses stepper.new ≡ S.losses stepper.old }
{
    gate_by_itself::<S>();
    crate::laws::input_by_place();
    waveform::laws::value_of_changes::<Value>();
    waveform::laws::same_changes::<Driver>();
    let cell = &wiring.cells[place];
    follow_line(alloc, cell, along, start, design.horizon(), stepper)
}
