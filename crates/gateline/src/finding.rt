//! The wave of a net, found from what gives it its value.

ghost use Rattle.std.specs.Prelude.{◌≡◌, ◌+◌, ◌<◌, ◌≤◌, All, length, map, suc, slice_get, IfOk, IfSome, Some};
ghost use Rattle.design.specs.Keys.{netlist};
ghost use Rattle.design.specs.Netlist.{stimulus};
ghost use Rattle.design.specs.kept.Places.{driver_places};
ghost use Rattle.fourstate.specs.declared.limits.TheConstants.{MAX_TIME};
ghost use Rattle.gateline.specs.kept.Known.{AreTraced, IsTraceBelow, current_by};
ghost use Rattle.scratch.specs.Run.{wave_of};
ghost use Rattle.scratch.specs.kept.Kept.{IsWiring};
ghost use Rattle.scratch.specs.kept.Run.{trace_of};
ghost use Rattle.waveform.specs.Changes.{wave_changes_below};
ghost use Rattle.waveform.specs.kept.Currents.{currents};

use crate::merge::merge_waves;
use chunked::Shared;
use design::{Design, Net};
use fourstate::Value;
use gatestep::{Driver, Stepper};
use scratch::Wiring;
use std::alloc::{AllocError, Global};
use waveform::{Trace, Wave, append_currents, laws};

/// The wave of an input of the design before the moment `end`, in time units, by its points.
fn input_wave(alloc: Global, net: &Net, end: u64) -> Result<Wave, AllocError>
    requires begun { 0 < end }
    requires within { end ≤ MAX_TIME + 1 }
    ensures { IfOk result (λ wave. wave ≡ wave_changes_below (stimulus net.now.points) end) }
{
    net.lawful();
    laws::push_to_changes::<Value>();
    laws::changes_lie_before::<Value>();
    laws::no_change::<Value>();
    let mut wave = Wave::open(alloc, net.stimulus_at(0))?;
    for (t, value) in net.points() {
        if t == 0 {
            continue;
        }
        if t >= end {
            break;
        }
        wave.push(t, value)?;
    }
    Ok(wave)
}

/// The wave of what the driver of this trace gives before the moment `end`, in time units.
fn driver_wave(alloc: Global, trace: &Trace, end: u64) -> Result<Wave, AllocError>
    requires begun { 0 < end }
    requires within { end ≤ MAX_TIME + 1 }
    requires trace { IsTraceBelow end trace.now }
    ensures { IfOk result (λ wave. wave ≡ wave_changes_below (currents trace.now) end) }
{
    let mut wave = Wave::open(alloc, trace.at(0).current())?;
    append_currents(&mut wave, trace, 1, end)?;
    Ok(wave)
}

/// The wave of what the driver at a place gives before the moment `end`, in time units; x where there is no trace of it.
fn wave_at_place(
    alloc: Global,
    traces: &[Shared<Trace>],
    place: usize,
    end: u64,
) -> Result<Wave, AllocError>
    requires begun { 0 < end }
    requires within { end ≤ MAX_TIME + 1 }
    requires trace { IfSome (slice_get traces.now place) (IsTraceBelow end) }
    ensures { IfOk result (λ wave. wave ≡ wave_changes_below (current_by traces.now place) end) }
{
    laws::no_change::<Value>();
    laws::same_changes::<Value>();
    match traces.get(place) {
        Some(trace) => driver_wave(alloc, trace.value(), end),
        None => Wave::open(alloc, Value::Unknown),
    }
}

/// The waves of what the drivers at some places give before the moment `end`, in time units.
fn driver_waves(
    alloc: Global,
    traces: &[Shared<Trace>],
    places: &[u32],
    end: u64,
) -> Result<Vec<Wave>, AllocError>
    requires begun { 0 < end }
    requires within { end ≤ MAX_TIME + 1 }
    requires traces { All (λ place. IfSome (slice_get traces.now place) (IsTraceBelow end)) places.now }
    ensures { IfOk result (λ waves. waves.items ≡ map (λ place. wave_changes_below (current_by traces.now place) end) places.now) }
{
    let mut waves = Vec::with_capacity(alloc, places.len())?;
    for place in places {
        waves.push(wave_at_place(alloc, traces, *place as usize, end)?)?;
    }
    Ok(waves)
}

/// The wave of the net at a place in the order of the design's nets that a gate drives alone, where this is the gate's trace. It fails
/// where memory runs out.
pub fn find_lone_wave<S: Stepper>(
    alloc: Global,
    design: &Design,
    wiring: &Wiring,
    place: usize,
    driver: usize,
    trace: &Trace,
) -> Result<Wave, AllocError>
    requires wired { IsWiring (netlist design.now) wiring.now }
    requires there { place < length (netlist design.now).nets }
    requires lone { slice_get wiring.now.lone_drivers.items place ≡ Some (Some driver) }
    requires driver { driver < length (netlist design.now).gates }
    requires trace { IfSome (slice_get (netlist design.now).gates driver) (λ g. trace.now ≡ trace_of S.answer (netlist design.now) g) }
    ensures wave { IfOk result (λ wave. Some wave ≡ slice_get (map (wave_of S.answer (netlist design.now)) (netlist design.now).nets) place) }
    ensures driven { IfOk result (λ wave. wave ≡ wave_changes_below (currents trace.now) (suc (netlist design.now).horizon)) }
{
    let _wiring = wiring;
    let _net = design.net_at(place);
    let _driver = driver;
    design.lawful();
    crate::laws::net_by_places();
    laws::value_of_changes::<Driver>();
    laws::changes_lie_before::<Driver>();
    laws::same_changes::<Value>();
    driver_wave(alloc, trace, design.horizon() + 1)
}

/// What the driver of this trace gives is the wave of the net at a place in the order of the design's nets that its gate drives alone.
/// Nothing runs but what the design says of itself.
pub fn is_lone_wave<S: Stepper>(
    design: &Design,
    wiring: &Wiring,
    place: usize,
    driver: usize,
    trace: &Trace,
    wave: &Wave,
)
    requires wired { IsWiring (netlist design.now) wiring.now }
    requires there { place < length (netlist design.now).nets }
    requires lone { slice_get wiring.now.lone_drivers.items place ≡ Some (Some driver) }
    requires driver { driver < length (netlist design.now).gates }
    requires trace { IfSome (slice_get (netlist design.now).gates driver) (λ g. trace.now ≡ trace_of S.answer (netlist design.now) g) }
    requires driven { wave.now ≡ wave_changes_below (currents trace.now) (suc (netlist design.now).horizon) }
    ensures { Some wave.now ≡ slice_get (map (wave_of S.answer (netlist design.now)) (netlist design.now).nets) place }
{
    let _wiring = wiring;
    let _net = design.net_at(place);
    let _driver = driver;
    let _trace = trace;
    let _wave = wave;
    design.lawful();
    crate::laws::net_by_places();
    laws::value_of_changes::<Driver>();
    laws::same_changes::<Value>();
}

/// The wave of the net at a place in the order of the design's nets, where the traces of all its drivers are found. It fails where
/// memory runs out.
pub fn find_wave<S: Stepper>(
    alloc: Global,
    design: &Design,
    wiring: &Wiring,
    traces: &[Shared<Trace>],
    place: usize,
) -> Result<Wave, AllocError>
    requires wired { IsWiring (netlist design.now) wiring.now }
    requires there { place < length (netlist design.now).nets }
    requires traced { IfSome (slice_get (netlist design.now).nets place) (λ n. AreTraced S.answer (netlist design.now) traces.now (driver_places (netlist design.now).gates n.name)) }
    ensures { IfOk result (λ wave. Some wave ≡ slice_get (map (wave_of S.answer (netlist design.now)) (netlist design.now).nets) place) }
{
    design.lawful();
    crate::laws::net_by_places();
    laws::value_of_changes::<Driver>();
    laws::value_of_changes::<Value>();
    laws::changes_lie_before::<Driver>();
    laws::same_changes::<Value>();
    let net = design.net_at(place);
    if net.is_input() {
        return input_wave(alloc, net, design.horizon() + 1);
    }
    if let Some(driver) = wiring.lone_drivers[place] {
        if let Some(trace) = traces.get(driver as usize) {
            return driver_wave(alloc, trace.value(), design.horizon() + 1);
        }
    }
    let end = design.horizon() + 1;
    let waves = driver_waves(alloc, traces, wiring.drivers[place].as_slice(), end)?;
    merge_waves(alloc, net.kind(), waves.as_slice(), end)
}
