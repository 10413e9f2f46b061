//! The waves of a run, read by the nets of its design.

ghost use Rattle.std.specs.Prelude.{◌≡◌, ◌<◌, ℕ, Some, length, option_map, slice_get};
ghost use Rattle.std.specs.Option.{option_copied};
ghost use Rattle.gatestep.specs.Step.{Evaluation, State};
ghost use Rattle.design.specs.Keys.{netlist};
ghost use Rattle.design.specs.Netlist.{net_named};
ghost use Rattle.scratch.specs.Run.{wave_of};
ghost use Rattle.scratch.specs.kept.Run.{IsRun, IsSomeRun};

use design::Design;
use waveform::{Run, Wave};

/// The wave of the net of this name in the run of the design; none where no net has the name.
pub fn wave_named<'a>(design: &Design, run: &'a Run, net: &str) -> Option<&'a Wave>
    ensures { (answer : Evaluation → ℕ → State) → IsRun answer design.now run.now →
        option_copied result ≡ option_map (wave_of answer (netlist design.now)) (net_named (netlist design.now) net.now) }
{
    let key = design.net(net)?;
    run.wave(key.number())
}

/// The wave of the net at a place in the order of the design's nets, in the run of the design.
pub fn wave_at<'a>(design: &Design, run: &'a Run, place: usize) -> &'a Wave
    requires run { IsSomeRun design.now run.now }
    requires within { place < length (netlist design.now).nets }
    ensures { (answer : Evaluation → ℕ → State) → IsRun answer design.now run.now →
        option_map (wave_of answer (netlist design.now)) (slice_get (netlist design.now).nets place) ≡ Some result.now }
{
    let key = design.net_key_at(place);
    match run.wave(key.number()) {
        Some(wave) => wave,
        None => unreachable!(),
    }
}
