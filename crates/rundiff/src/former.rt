//! What new functions stand on of the old run. Of one with a patch of its own so far nothing is needed, and no name is
//! looked at.

ghost use Rattle.std.specs.Prelude.{◌≡◌, ◌<◌, ◌⊎◌, ℕ, suc, length};
ghost use Rattle.gatestep.specs.Step.{Evaluation, State};
ghost use Rattle.design.specs.Connections.{to_net};
ghost use Rattle.design.specs.Keys.{netlist};
ghost use Rattle.waveform.specs.Changes.{wave_changes_below};
ghost use Rattle.waveform.specs.kept.Changes.{trace_below};
ghost use Rattle.scratch.specs.kept.Run.{IsRun};
ghost use Rattle.rundiff.specs.kept.Fronts.{IsOwn, named_state};
ghost use Rattle.rundiff.specs.kept.Kept.{read_at};
ghost use Rattle.rundiff.specs.kept.PlaceMaps.{kept_at};
ghost use Rattle.rundiff.specs.kept.Places.{gate_at, net_at};

use crate::blanks::Blanks;
use crate::old::{old_trace, old_wave};
use crate::patches::is_own;
use crate::place_map::PlaceMap;
use design::Design;
use fourstate::Value;
use gatestep::Driver;
use waveform::{Patch, Run, Trace, Wave};

/// A former run beside which a new one is made.
#[derive(Drop)]
pub struct Former<'a> {
    /// The design that was run.
    pub old: &'a Design,
    /// Its run.
    pub run: &'a Run,
    /// The new design.
    pub new: &'a Design,
    /// The lines of what the old design has not.
    pub blanks: &'a Blanks,
}

/// The wave in the old run of the net of the new design at a place; any wave where the patch of the net has all so far.
pub fn former_wave<'a>(
    waves: &PlaceMap<Patch<Value>>,
    former: &Former<'a>,
    place: usize,
) -> &'a Wave
    requires there { place < length (netlist former.now.new.now).nets }
    ensures { (answer : Evaluation → ℕ → State) → IsRun answer former.now.old.now former.now.run.now → IsOwn (kept_at waves.now place)
        ⊎ (result.now ≡ wave_changes_below (read_at answer (netlist former.now.old.now) (to_net (net_at (netlist former.now.new.now) place).name)) (suc (netlist former.now.old.now).horizon)) }
{
    if is_own(waves, place) {
        return &former.blanks.wave;
    }
    let key = former.new.net_key_at(place);
    let name = former.new.net_at(place).name().as_str();
    old_wave(former, key, name)
}

/// The trace in the old run of the gate of the new design at a place; any trace where the patch of the gate has all so far.
pub fn former_trace<'a>(
    traces: &PlaceMap<Patch<Driver>>,
    former: &Former<'a>,
    place: usize,
) -> &'a Trace
    requires there { place < length (netlist former.now.new.now).gates }
    ensures { (answer : Evaluation → ℕ → State) → IsRun answer former.now.old.now former.now.run.now → IsOwn (kept_at traces.now place)
        ⊎ (result.now ≡ trace_below (named_state answer (netlist former.now.old.now) (gate_at (netlist former.now.new.now) place).name) (suc (netlist former.now.old.now).horizon)) }
{
    if is_own(traces, place) {
        return &former.blanks.trace;
    }
    let key = former.new.gate_key_at(place);
    let name = former.new.gate_at(place).name().as_str();
    old_trace(former, key, name)
}
