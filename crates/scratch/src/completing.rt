//! The waves that are found from the traces of drivers.

ghost use Rattle.std.specs.Prelude.{◌≡◌, ◌<◌, suc, map, length, slice_get, OnOk, IfSome};
ghost use Rattle.design.specs.Keys.{netlist};
ghost use Rattle.scratch.specs.kept.Kept.{IsWiring};
ghost use Rattle.scratch.specs.kept.Recorded.{recorded_below};
ghost use Rattle.scratch.specs.Run.{wave_of};
ghost use Rattle.scratch.specs.kept.Run.{trace_of};

use crate::wiring::Wiring;
use design::Design;
use fourstate::Value;
use gatestep::{Driver, Stepper};
use std::alloc::AllocError;
use waveform::{Trace, Wave, append_currents, laws};

/// Completes the waves of the nets of a run that is done, by the traces of the gates. Where an allocation was refused, what the
/// waves have is not known.
pub fn complete_waves<S: Stepper>(
    design: &Design,
    wiring: &Wiring,
    traces: &[Trace],
    waves: &mut Vec<Wave>,
) -> Result<(), AllocError>
    requires wired { IsWiring (netlist design.now) wiring.now }
    requires traces { traces.now ≡ map (trace_of S.answer (netlist design.now)) (netlist design.now).gates }
    requires waves { waves.old.items ≡ map (λ n. recorded_below S.answer (netlist design.now) n (suc (netlist design.now).horizon)) (netlist design.now).nets }
    ensures { OnOk result (waves.new.items ≡ map (wave_of S.answer (netlist design.now)) (netlist design.now).nets) }
{
    for place in 0..waves.len() {
        complete_wave::<S>(design, wiring, traces, place, &mut waves[place])?;
    }
    Ok(())
}

/// Completes the wave of the net at a place: one driver alone gives the net what the driver's trace says.
fn complete_wave<S: Stepper>(
    design: &Design,
    wiring: &Wiring,
    traces: &[Trace],
    place: usize,
    wave: &mut Wave,
) -> Result<(), AllocError>
    requires wired { IsWiring (netlist design.now) wiring.now }
    requires traces { traces.now ≡ map (trace_of S.answer (netlist design.now)) (netlist design.now).gates }
    requires there { place < length (netlist design.now).nets }
    requires wave { IfSome (slice_get (netlist design.now).nets place) (λ n. wave.old ≡ recorded_below S.answer (netlist design.now) n (suc (netlist design.now).horizon)) }
    ensures { OnOk result (IfSome (slice_get (netlist design.now).nets place) (λ n. wave.new ≡ wave_of S.answer (netlist design.now) n)) }
{
    design.lawful();
    laws::value_of_changes::<Driver>();
    laws::changes_lie_before::<Driver>();
    laws::same_changes::<Value>();
    if let Some(driver) = wiring.lone_drivers[place] {
        append_currents(wave, &traces[driver as usize], 1, design.horizon() + 1)?;
    }
    Ok(())
}
