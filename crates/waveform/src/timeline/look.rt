//! Looking a timeline up.

ghost use Rattle.std.specs.Prelude.{◌≡◌, ◌<◌, IfSome};
ghost use Rattle.waveform.specs.Timelines.{value_by, first_after, last_before, next_to};
ghost use Rattle.waveform.specs.declared.times.TheConstants.{TIME_END};

use super::Timeline;
use crate::entries::{count_until, entry_at, latest_entry, value_at, value_near};
use crate::marks::first_from;
use crate::sample::Sample;

/// Look-ups by time. Those that find an entry find none where a value merely moves by itself: in a trace, none where an
/// event falls due. An entry that is found can be stored, as it is.
impl<V: Sample> Timeline<V> {
    /// The value at `t`, in time units. It can be stored there, where that moment can be.
    pub fn at(&self, t: u64) -> V
        ensures value { result ≡ value_by V.drift V.start self.now t }
        ensures can { t < TIME_END → V.can_store t result }
    {
        value_at::<V>(self.entries.as_slice(), t)
    }

    /// The value at `t`, in time units. `near` says where it is looked for first, and where it was found: so a look-up goes on from
    /// the one before. It may be any number; 0 says nothing.
    #[inline(always)]
    pub fn at_near(&self, near: &mut usize, t: u64) -> V
        ensures { result ≡ value_by V.drift V.start self.now t }
    {
        value_near::<V>(self.entries.as_slice(), near, t)
    }

    /// The first entry after `t`: its moment, in time units, and its value.
    pub fn next_after(&self, t: u64) -> Option<(u64, V)>
        ensures found { result ≡ first_after self.now t }
        ensures can { IfSome result (λ entry. V.can_store entry.0 entry.1) }
    {
        let entries = self.entries.as_slice();
        entry_at::<V>(entries, count_until::<V>(entries, t))
    }

    /// The last entry before `t`: its moment, in time units, and its value.
    pub fn last_before(&self, t: u64) -> Option<(u64, V)>
        ensures found { result ≡ last_before self.now t }
        ensures can { IfSome result (λ entry. V.can_store entry.0 entry.1) }
    {
        if t == 0 {
            return None;
        }
        Some(latest_entry::<V>(self.entries.as_slice(), t - 1))
    }

    /// The first entry after `t` of this value: its moment, in time units, and the value.
    pub fn next_value(&self, t: u64, value: V) -> Option<(u64, V)>
        ensures found { result ≡ next_to V.same self.now t value }
        ensures can { IfSome result (λ entry. V.can_store entry.0 entry.1) }
    {
        let entries = self.entries.as_slice();
        first_from::<V>(entries, &self.marks, count_until::<V>(entries, t), value)
    }
}
