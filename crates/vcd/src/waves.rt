//! The waves of a snapshot.

ghost use Rattle.std.specs.Prelude.{◌≡◌, ◌≤◌, ◌<◌, ℕ, length};
ghost use Rattle.fourstate.specs.Values.{same_value};
ghost use Rattle.fourstate.specs.declared.limits.TheConstants.{MAX_TIME};
ghost use Rattle.design.specs.declared.limits.TheConstants.{MAX_NETS};
ghost use Rattle.waveform.specs.Entries.{standing};
ghost use Rattle.waveform.specs.kept.Timelines.{IsTimeline};
ghost use Rattle.vcd.specs.Text.{waves_of};
ghost use Rattle.vcd.specs.kept.Waves.{wave_in};

use bench::Snapshot;
use fourstate::Value;
use std::marker::Model;
use waveform::{Wave, laws};

/// The waves of a snapshot's nets, in the nets' order. Contracts see them as the changes of each net, and the horizon.
#[derive(Drop)]
pub(crate) struct Waves<'a> {
    snapshot: &'a Snapshot,
}

impl<'a> Model for Waves<'a> {
    ghost use Rattle.vcd.specs.Text.{waves_of};
    ghost use Rattle.vcd.specs.kept.Waves.{Recorded};

    ghost Value = { Recorded };

    ghost view = { λ a. record { waves = waves_of a.snapshot.now.design; horizon = a.snapshot.now.design.horizon } };
}

impl<'a> Waves<'a> {
    pub(crate) fn of(snapshot: &'a Snapshot) -> Waves<'a>
        ensures waves { result.waves ≡ waves_of snapshot.now.design }
        ensures horizon { result.horizon ≡ snapshot.now.design.horizon }
    {
        Waves { snapshot }
    }

    /// How many nets there are.
    pub(crate) fn count(&self) -> usize
        ensures { result ≡ length self.now.waves }
    {
        self.snapshot.design().net_count()
    }

    /// The last moment.
    pub(crate) fn horizon(&self) -> u64
        ensures { result ≡ self.now.horizon }
    {
        self.snapshot.horizon()
    }

    /// The wave of the net at this place.
    pub(crate) fn wave(&self, place: usize) -> &'a Wave
        requires { place < length self.now.waves }
        ensures { result.now ≡ wave_in self.now.waves place }
    {
        self.snapshot.wave_at(place)
    }

    /// The law of waves; nothing runs.
    pub(crate) fn lawful(&self)
        ensures timelines { (k : ℕ) → k < length self.now.waves → IsTimeline same_value standing (wave_in self.now.waves k) }
        ensures few { length self.now.waves ≤ MAX_NETS }
        ensures horizon { self.now.horizon ≤ MAX_TIME }
    {
        laws::timeline_of_changes::<Value>();
        self.snapshot.design().lawful();
    }
}
