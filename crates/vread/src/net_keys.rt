//! The keys of a design's nets.

ghost use Rattle.std.specs.Prelude.{◌≡◌, IsSome, slice_get};
ghost use Rattle.design.specs.Keys.{name_of, netlist};
ghost use Rattle.design.specs.kept.Keys.{net_by_key};
ghost use Rattle.vread.specs.kept.Parts.{net_at};

use design::{Design, NetKey};
use elaboration::NetRun;

/// The key of the first net of a run.
pub fn key_of(design: &Design, run: NetRun) -> NetKey
    requires { IsSome (slice_get (netlist design.now).nets run.place) }
    ensures net { net_by_key design.now result ≡ slice_get (netlist design.now).nets run.place }
    ensures name { name_of design.now.nets result ≡ net_at (netlist design.now).nets run.place }
    ensures there { IsSome (net_by_key design.now result) }
{
    design.net_key_at(run.place as usize)
}
