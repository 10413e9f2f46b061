//! The edit of the horizon of a design.

ghost use Rattle.std.specs.Prelude.{◌≡◌, ◌≤◌};
ghost use Rattle.fourstate.specs.declared.limits.TheConstants.{MAX_TIME};
ghost use Rattle.design.specs.Keys.{netlist};
ghost use Rattle.design.specs.Netlist.{with_horizon};

use crate::design::Design;

impl Design {
    /// Sets the last moment of a run, in time units.
    #[tactic(auto, using(crate::proofs::DesignLemmas::kept_with_horizon), unfolding(crate::specs::Keys::netlist))]
    pub fn set_horizon(self, t: u64) -> Design
        requires { t ≤ MAX_TIME }
        ensures by_key { result ≡ record self { horizon = t } }
        ensures by_name { netlist result ≡ with_horizon (netlist self) t }
    {
        Design { horizon: t, ..self }
    }
}
