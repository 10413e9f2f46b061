//! The line of a gate of a design, found for other threads.

ghost use Rattle.std.specs.Prelude.{◌≡◌, ◌<◌, ◌≤◌, suc, length, slice_get, IfOk, IfSome, Some};
ghost use Rattle.std.specs.Option.{ForSome};
ghost use Rattle.gatestep.specs.Step.{advance};
ghost use Rattle.design.specs.Keys.{netlist};
ghost use Rattle.gateline.specs.kept.Known.{AreKnown};
ghost use Rattle.scratch.specs.Run.{state_after};
ghost use Rattle.scratch.specs.kept.Kept.{IsWiring};
ghost use Rattle.scratch.specs.kept.Run.{trace_of};
ghost use Rattle.waveform.specs.Changes.{wave_changes_below};
ghost use Rattle.waveform.specs.kept.Changes.{trace_below};
ghost use Rattle.waveform.specs.kept.Currents.{currents};

use crate::finding::find_lone_wave;
use crate::gate::follow_gate;
use crate::known_line::{KnownLine, Line};
use crate::laws::gate_by_itself;
use crate::line::{Start, first_moment};
use crate::reads::reads_of;
use crate::walk::{Along, Former};
use chunked::Shared;
use design::Design;
use fourstate::Value;
use gatestep::{Driver, Serial};
use scratch::Wiring;
use std::alloc::{AllocError, Global};
use waveform::{Trace, Wave};

/// The place of the net that the gate at a place drives alone, if there is one.
pub fn lone_net(wiring: &Wiring, place: usize) -> Option<u32>
    ensures { IfSome result (λ net. slice_get wiring.now.lone_drivers.items net ≡ Some (Some place)) }
{
    let net = *wiring.outputs.get(place)?;
    match wiring.lone_drivers.get(net as usize) {
        Some(Some(driver)) if *driver as usize == place => Some(net),
        _ => None,
    }
}

/// What the driver of the gate at a place gives, as a wave, where this is its trace and it drives a net alone. It fails where memory
/// runs out.
fn find_driven(
    alloc: Global,
    design: &Design,
    wiring: &Wiring,
    place: usize,
    trace: &Trace,
) -> Result<Option<Shared<Wave>>, AllocError>
    requires wired { IsWiring (netlist design.now) wiring.now }
    requires there { place < length (netlist design.now).gates }
    requires trace { IfSome (slice_get (netlist design.now).gates place) (λ g. trace.now ≡ trace_of advance (netlist design.now) g) }
    ensures { IfOk result (λ found. ForSome found (λ wave. wave ≡ wave_changes_below (currents trace.now) (suc (netlist design.now).horizon))) }
{
    let Some(net) = lone_net(wiring, place) else {
        return Ok(None);
    };
    let wave = find_lone_wave::<Serial>(alloc, design, wiring, net as usize, place, trace)?;
    Ok(Some(wave.shared(alloc)?))
}

/// The line of the gate at a place in the order of the design's gates up to the horizon, where the waves of all nets that it reads are
/// found, with what it was followed along. Where it was followed before up to an earlier moment it is asked of the later moments alone.
/// It fails where memory runs out.
pub fn find_known(
    alloc: Global,
    design: &Design,
    wiring: &Wiring,
    along: Along,
    place: usize,
    former: Option<Former>,
) -> Result<KnownLine, AllocError>
    requires wired { IsWiring (netlist design.now) wiring.now }
    requires there { place < length (netlist design.now).gates }
    requires known { IfSome (slice_get wiring.now.cells.items place) (λ cell. AreKnown advance (netlist design.now) along.waves.now cell.inputs) }
    requires order { ForSome former (λ former. former.done ≤ (netlist design.now).horizon) }
    requires trace { ForSome former (λ former. IfSome (slice_get (netlist design.now).gates place) (λ g.
        former.trace.now ≡ trace_below (state_after advance (netlist design.now) g) (suc former.done))) }
{
    gate_by_itself::<Serial>();
    crate::laws::input_by_place();
    waveform::laws::value_of_changes::<Value>();
    waveform::laws::same_changes::<Driver>();
    let last = design.horizon();
    let cell = &wiring.cells[place];
    let reads = reads_of(alloc, cell, along.waves)?;
    let mut serial = Serial::new();
    let start = Start {
        former,
        beside: None,
        known: None,
    };
    let line = follow_gate(alloc, design, wiring, along, place, start, &mut serial)?;
    let Line { trace, .. } = line;
    let wave = find_driven(alloc, design, wiring, place, trace.value())?;
    Ok(KnownLine {
        kind: cell.kind(),
        delays: cell.delays(),
        reads,
        begin: first_moment(former),
        last,
        line: Line { trace, wave },
        history: serial.into_record(),
    })
}
