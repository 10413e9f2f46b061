//! A timeline that is looked up again and again.

ghost use Rattle.std.specs.Prelude.{◌≡◌};
ghost use Rattle.waveform.specs.Timelines.{value_by};

use crate::entries::value_near;
use crate::sample::Sample;
use crate::timeline::Timeline;
use std::marker::Model;

/// A timeline that is looked up again and again (own): each look-up goes on from where the one before it ended, which is near as
/// time goes on. Contracts see the timeline.
#[derive(Drop)]
pub struct Lookup<'a, V: Sample> {
    entries: &'a [V::Entry],
    /// How many entries lie at the moment that was looked up last or before it; 0 before any.
    near: usize,
}

impl<'a, V: Sample> Model for Lookup<'a, V> {
    ghost use Rattle.std.specs.Prelude.{ℕ, List, map};
    ghost use Rattle.waveform.specs.kept.Timelines.{IsTimeline};

    ghost Value = { List (ℕ × V) };

    ghost view = { λ a. map V.stored a.entries.now };

    ghost invariant = { λ a. IsTimeline V.same V.drift (map V.stored a.entries.now) };
}

impl<'a, V: Sample> Lookup<'a, V> {
    /// The timeline, of which nothing was looked up. It takes no memory.
    pub fn new(line: &'a Timeline<V>) -> Lookup<'a, V>
        ensures { result ≡ line.now }
    {
        // The call tells what every timeline keeps.
        let _last = line.last();
        Lookup {
            entries: line.stored(),
            near: 0,
        }
    }

    /// The value at `t`, in time units.
    #[inline(always)]
    pub fn at(&mut self, t: u64) -> V
        ensures value { result ≡ value_by V.drift V.start self.old t }
        ensures same { self.new ≡ self.old }
    {
        value_near::<V>(self.entries, &mut self.near, t)
    }
}
