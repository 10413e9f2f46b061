//! How a helper looks for gates that it can follow.

ghost use Rattle.std.specs.Prelude.{◌≡◌, ◌<◌, All, length, OnOk};
ghost use Rattle.design.specs.Keys.{netlist};
ghost use Rattle.gatestep.specs.Step.{advance};
ghost use Rattle.scratch.specs.kept.Kept.{IsWiring};
ghost use Rattle.ordering.specs.kept.Come.{IsReady};
ghost use Rattle.ordering.specs.kept.Begins.{IsBegin};
ghost use Rattle.ordering.specs.kept.Helpers.{IsSound};

use crate::checking::may_come;
use crate::following::{Begin, find_ahead, follow_one};
use crate::progress::Progress;
use design::Design;
use gatestep::Serial;
use scratch::Wiring;
use std::alloc::{AllocError, Global};

/// Looks at the gates at these places, and says whether one came. It fails where memory runs out.
pub fn look_along(
    alloc: Global,
    design: &Design,
    wiring: &Wiring,
    begin: Begin,
    places: &[u32],
    progress: &mut Progress,
) -> Result<bool, AllocError>
    requires wired { IsWiring (netlist design.now) wiring.now }
    requires begin { IsBegin advance design.now begin }
    requires within { All (λ place. place < length (netlist design.now).gates) places.now }
    requires sound { IsSound advance (netlist design.now) progress.old }
    ensures sound { OnOk result (IsSound advance (netlist design.now) progress.new) }
{
    let mut came = false;
    for place in places {
        if look_at(alloc, design, wiring, begin, *place, progress)? {
            came = true;
        }
    }
    Ok(came)
}

/// Looks at the gate at a place. It comes where all that drive what it reads have come, and its line is found, or it is not taken by
/// another and followed here. It fails where memory runs out.
fn look_at(
    alloc: Global,
    design: &Design,
    wiring: &Wiring,
    begin: Begin,
    place: u32,
    progress: &mut Progress,
) -> Result<bool, AllocError>
    requires wired { IsWiring (netlist design.now) wiring.now }
    requires begin { IsBegin advance design.now begin }
    requires within { place < length (netlist design.now).gates }
    requires sound { IsSound advance (netlist design.now) progress.old }
    ensures sound { OnOk result (IsSound advance (netlist design.now) progress.new) }
{
    if progress.has_come(place) || !may_come(wiring, progress.come.as_slice(), place) {
        return Ok(false);
    }
    if !is_here(alloc, design, wiring, begin, place as usize, progress)? {
        return Ok(false);
    }
    let mut serial = Serial::new();
    follow_one(
        alloc,
        design,
        wiring,
        begin,
        place as usize,
        &mut progress.lines,
        &mut serial,
    )?;
    progress.come[place as usize] = true;
    Ok(true)
}

/// Whether the line of the gate at a place, which waits for none, is found: by another, or here, if none has taken it. It fails where
/// memory runs out.
fn is_here(
    alloc: Global,
    design: &Design,
    wiring: &Wiring,
    begin: Begin,
    place: usize,
    progress: &mut Progress,
) -> Result<bool, AllocError>
    requires wired { IsWiring (netlist design.now) wiring.now }
    requires begin { IsBegin advance design.now begin }
    requires ready { IsReady advance (netlist design.now) wiring.now progress.old.lines.traces.items place }
    requires sound { IsSound advance (netlist design.now) progress.old }
    ensures sound { IsSound advance (netlist design.now) progress.new }
    ensures traces { progress.new.lines.traces ≡ progress.old.lines.traces }
{
    let Some(ahead) = begin.ahead else {
        return Ok(false);
    };
    if ahead.line(place).is_some() {
        return Ok(true);
    }
    if !ahead.take(place) {
        return Ok(false);
    }
    let line = find_ahead(alloc, design, wiring, begin, place, &mut progress.lines)?;
    ahead.put(place, line);
    Ok(true)
}
