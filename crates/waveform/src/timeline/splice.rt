//! The function of another timeline over a span of moments.

ghost use Rattle.std.specs.Prelude.{◌≡◌, ◌≤◌, ◌<◌, ◌+◌, ℕ, nat_le, ◌&&◌, if◌then◌else◌, OnOk, OnErr};
ghost use Rattle.waveform.specs.Timelines.{value_by};
ghost use Rattle.waveform.specs.declared.times.TheConstants.{TIME_END};

use super::Timeline;
use crate::entries::splice;
use crate::marks::Marks;
use crate::sample::Sample;
use std::alloc::AllocError;

impl<V: Sample> Timeline<V> {
    /// Takes over the function of `other` at the moments from `from` up to and with `to`, in time units. At all other
    /// moments the value stays. It fails where memory runs out, and then nothing has changed.
    pub fn splice(&mut self, from: u64, to: u64, other: &Timeline<V>) -> Result<(), AllocError>
        requires order { from ≤ to }
        requires within { to + 1 < TIME_END }
        ensures ok { OnOk result ((t : ℕ) → value_by V.drift V.start self.new t
            ≡ (if nat_le from t && nat_le t to then value_by V.drift V.start other.now t else value_by V.drift V.start self.old t)) }
        ensures err { OnErr result (self.new ≡ self.old) }
    {
        let alloc = *self.entries.allocator();
        let entries = splice::<V>(
            alloc,
            self.entries.as_slice(),
            from,
            to,
            other.entries.as_slice(),
        )?;
        self.entries = entries;
        self.marks = Marks::none();
        Ok(())
    }
}
