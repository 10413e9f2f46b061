//! A function of time that follows another one for a while.

ghost use Rattle.std.specs.Prelude.{◌≡◌, ◌<◌, ◌≤◌, ℕ, suc, nat_lt, IfOk, if◌then◌else◌};
ghost use Rattle.waveform.specs.kept.Joins.{joined};
ghost use Rattle.waveform.specs.Timelines.{entries_until, value_by};
ghost use Rattle.waveform.specs.kept.Timelines.{end_of};
ghost use Rattle.waveform.specs.declared.times.TheConstants.{TIME_END};

use super::Timeline;
use crate::entries::{join, up_to};
use crate::marks::{BLOCK, LEAST};
use crate::sample::Sample;
use std::alloc::{AllocError, Global};

/// Room for at least so many entries: where they are many for whole blocks, so that the memory of a line that an earlier edit
/// made serves one of about its length again.
fn in_blocks(count: usize) -> usize
    ensures { count ≤ result }
{
    if count < LEAST {
        return count;
    }
    count.saturating_add(BLOCK - count % BLOCK)
}

impl<V: Sample> Timeline<V> {
    /// The same function up to `t`, in time units, which after it changes by itself alone; there is room for so many entries
    /// more. It fails where memory runs out.
    pub fn fork(&self, alloc: Global, t: u64, room: usize) -> Result<Timeline<V>, AllocError>
        ensures entries { IfOk result (λ fork. fork ≡ entries_until self.now t) }
        ensures end { IfOk result (λ fork. end_of fork ≤ suc t) }
    {
        let former = up_to::<V>(self.entries.as_slice(), t);
        let room = in_blocks(former.len().saturating_add(room));
        let mut entries = Vec::with_capacity(alloc, room)?;
        entries.extend_from_slice(former)?;
        let marks = self.marks.of_first::<V>(alloc, former.len())?;
        Ok(Timeline { entries, marks })
    }

    /// The function that from `from`, a moment after all entries, up to and with `to`, in time units, is that of `other`, and
    /// changes by itself alone after it. It fails where memory runs out, and then the function is gone.
    pub fn follow(self, from: u64, to: u64, other: &Timeline<V>) -> Result<Timeline<V>, AllocError>
        requires later { end_of self ≤ from }
        requires order { from ≤ to }
        requires within { from < TIME_END }
        ensures entries { IfOk result (λ new. new ≡ joined V.same V.drift V.start self from (entries_until other.now to)) }
        ensures end { IfOk result (λ new. end_of new ≤ suc to) }
        ensures value { IfOk result (λ new. (u : ℕ) → value_by V.drift V.start new u
            ≡ (if nat_lt u from then value_by V.drift V.start self u else value_by V.drift V.start (entries_until other.now to) u)) }
    {
        let Timeline { mut entries, marks } = self;
        join::<V>(&mut entries, from, up_to::<V>(other.entries.as_slice(), to))?;
        Ok(Timeline { entries, marks })
    }
}
