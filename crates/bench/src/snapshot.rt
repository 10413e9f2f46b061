//! What stands after a commit.

ghost use Rattle.std.specs.Prelude.{◌≡◌, ◌<◌, IfOk, Some, length, option_map, slice_get};
ghost use Rattle.std.specs.Arc.{arc_value};
ghost use Rattle.std.specs.Option.{option_copied};
ghost use Rattle.gatestep.specs.Step.{advance};
ghost use Rattle.design.specs.Keys.{netlist};
ghost use Rattle.design.specs.Netlist.{net_named};
ghost use Rattle.scratch.specs.Run.{wave_of};
ghost use Rattle.scratch.specs.kept.Run.{IsRun};
ghost use Rattle.bench.specs.Benches.{snapshot_of};

use crate::simulated::Simulated;
use design::Design;
use scratch::{wave_at, wave_named};
use std::alloc::{AllocError, Global};
use std::marker::Model;
use std::sync::Arc;
use waveform::{Run, Wave};

/// A committed design with its run, which never change. The type keeps that the run is the design's.
#[derive(Drop)]
pub struct Snapshot {
    version: u64,
    simulated: Arc<Simulated>,
}

impl Model for Snapshot {
    ghost use Rattle.std.specs.Arc.{arc_value};
    ghost use Rattle.gatestep.specs.Step.{advance};
    ghost use Rattle.design.specs.Keys.{netlist};
    ghost use Rattle.scratch.specs.kept.Run.{IsRun};
    ghost use Rattle.bench.specs.Benches.{SnapshotRecord};

    ghost Value = { SnapshotRecord };

    ghost view = { λ s. record { version = s.version; design = netlist (arc_value s.simulated).design } };

    ghost invariant = { λ s. IsRun advance (arc_value s.simulated).design (arc_value s.simulated).run };
}

impl Snapshot {
    /// The design at a version with its run. It fails where memory runs out.
    pub(crate) fn of(
        alloc: Global,
        version: u64,
        simulated: &Arc<Simulated>,
    ) -> Result<Arc<Snapshot>, AllocError>
        requires { IsRun advance (arc_value simulated.now).design (arc_value simulated.now).run }
        ensures { IfOk result (λ snapshot. arc_value snapshot ≡ snapshot_of version (netlist (arc_value simulated.now).design)) }
    {
        let simulated = Arc::try_clone(simulated)?;
        match Arc::new(alloc, Snapshot { version, simulated }) {
            Ok(snapshot) => Ok(snapshot),
            Err(_) => Err(AllocError),
        }
    }

    /// How many commits there were up to this design.
    pub fn version(&self) -> u64
        ensures { result ≡ self.now.version }
    {
        self.version
    }

    /// The design.
    pub fn design(&self) -> &Design
        ensures { netlist result.now ≡ self.now.design }
    {
        &self.simulated.design
    }

    /// The design and its run, which has the wave of each net and the trace of each gate's driver under its key.
    pub fn design_and_run(&self) -> (&Design, &Run)
        ensures design { netlist result.0.now ≡ self.now.design }
        ensures run { IsRun advance result.0.now result.1.now }
    {
        (&self.simulated.design, &self.simulated.run)
    }

    /// The last moment of the run, in time units.
    pub fn horizon(&self) -> u64
        ensures { result ≡ self.now.design.horizon }
    {
        self.simulated.design.horizon()
    }

    /// The wave of the net of this name; none where no net has the name.
    pub fn wave(&self, net: &str) -> Option<&Wave>
        ensures { option_copied result ≡ option_map (wave_of advance self.now.design) (net_named self.now.design net.now) }
    {
        wave_named(&self.simulated.design, &self.simulated.run, net)
    }

    /// The wave of the net at a place in the order of the design's nets.
    pub fn wave_at(&self, place: usize) -> &Wave
        requires { place < length self.now.design.nets }
        ensures { option_map (wave_of advance self.now.design) (slice_get self.now.design.nets place) ≡ Some result.now }
    {
        wave_at(&self.simulated.design, &self.simulated.run, place)
    }
}
