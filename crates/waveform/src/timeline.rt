//! Functions of time, kept as entries.

ghost use Rattle.std.specs.Prelude.{◌≡◌, ◌<◌, ◌≤◌, ℕ, nat_lt, false, [], ◌∷◌, ◌++◌, map, All, IfOk, OnOk, OnErr, Some, if◌then◌else◌};
ghost use Rattle.std.specs.List.{last_or};
ghost use Rattle.waveform.specs.Timelines.{value_by, entries_until};
ghost use Rattle.waveform.specs.kept.Timelines.{IsTimeline, is_reached, pushed};

mod follow;
mod look;
mod splice;

use crate::entries::{FIRST_ROOM, SPARE_ROOM, append, count_until, last_entry, push_value};
use crate::marks::{LEAST, Marks};
use crate::sample::Sample;
use std::alloc::{AllocError, Global};
use std::marker::Model;
use std::mem;

/// A function of time, kept as the entries at which it changes other than by itself (own). Contracts see the list of its
/// entries, each a moment, in time units, and a value. The first one lies at 0, and each stores another value than the
/// one before it has become.
#[derive(Drop)]
pub struct Timeline<V: Sample> {
    entries: Vec<V::Entry>,
    // Of the entries of a long wave that a run keeps; of others there are none, or of the first ones alone.
    marks: Marks,
}

impl<V: Sample> Model for Timeline<V> {
    ghost use Rattle.std.specs.Prelude.{ℕ, List, map, All};
    ghost use Rattle.waveform.specs.kept.Marks.{AreMarks};
    ghost use Rattle.waveform.specs.kept.Timelines.{IsTimeline};

    ghost Value = { List (ℕ × V) };

    ghost view = { λ a. map V.stored a.entries.items };

    ghost invariant = { λ a. IsTimeline V.same V.drift (map V.stored a.entries.items) × All (λ e. V.can_store e.0 e.1) (map V.stored a.entries.items)
        × AreMarks V.digit a.marks (map V.stored a.entries.items) };
}

impl<V: Sample> Timeline<V> {
    /// The function that begins with this value and changes by itself alone. It fails where memory runs out.
    pub fn open(alloc: Global, value: V) -> Result<Timeline<V>, AllocError>
        requires { V.can_store 0 value }
        ensures { IfOk result (λ timeline. timeline ≡ (0, value) ∷ []) }
    {
        let mut entries = Vec::with_capacity(alloc, FIRST_ROOM)?;
        entries.push(value.entry(0))?;
        Ok(Timeline {
            entries,
            marks: Marks::none(),
        })
    }

    /// Gives the function this value from `t` on, in time units, a moment after all entries. Nothing is stored where it has
    /// that value by itself. It fails where memory runs out, and then nothing has changed.
    pub fn push(&mut self, t: u64, value: V) -> Result<(), AllocError>
        requires later { All (λ entry. entry.0 < t) self.old }
        requires can { V.can_store t value }
        ensures ok { OnOk result (self.new ≡ pushed V.same V.drift self.old t value) }
        ensures value { OnOk result ((u : ℕ) → value_by V.drift V.start self.new u
            ≡ (if nat_lt u t then value_by V.drift V.start self.old u else V.drift value u)) }
        ensures err { OnErr result (self.new ≡ self.old) }
    {
        push_value::<V>(&mut self.entries, t, value)?;
        Ok(())
    }

    /// Gives the function this value from `t` on, in time units, a moment after all entries, where it has the value `known` by
    /// itself. It fails where memory runs out, and then nothing has changed.
    #[inline(always)]
    pub fn push_known(&mut self, t: u64, known: V, value: V) -> Result<(), AllocError>
        requires later { All (λ entry. entry.0 < t) self.old }
        requires can { V.can_store t value }
        requires known { is_reached V.same V.drift self.old t value ≡ V.same value known }
        ensures ok { OnOk result (self.new ≡ pushed V.same V.drift self.old t value) }
        ensures err { OnErr result (self.new ≡ self.old) }
    {
        if value.is_same(known) {
            return Ok(());
        }
        self.append(value.entry(t))
    }

    /// Adds an entry, which lies after all others and whose value the function does not have by itself. It fails where memory
    /// runs out, and then nothing has changed.
    #[inline(always)]
    pub(crate) fn append(&mut self, entry: V::Entry) -> Result<(), AllocError>
        requires later { All (λ e. e.0 < (V.stored entry).0) self.old }
        requires can { V.can_store (V.stored entry).0 (V.stored entry).1 }
        requires other { is_reached V.same V.drift self.old (V.stored entry).0 (V.stored entry).1 ≡ false }
        ensures ok { OnOk result (self.new ≡ self.old ++ V.stored entry ∷ []) }
        ensures err { OnErr result (self.new ≡ self.old) }
    {
        append::<V>(&mut self.entries, entry)?;
        Ok(())
    }

    /// Makes room for so many entries more, so that they are added without moving any. It fails where memory runs out, and
    /// then nothing has changed.
    pub fn make_room(&mut self, count: usize) -> Result<(), AllocError>
        ensures { self.new ≡ self.old }
    {
        self.entries.reserve(count)?;
        Ok(())
    }

    /// For how many entries there is to be room in a function that goes on from this one after `t`, in time units.
    pub(crate) fn room_after(&self, t: u64) -> usize {
        let entries = self.entries.as_slice();
        let later = entries.len() - count_until::<V>(entries, t);
        later.saturating_add(SPARE_ROOM)
    }

    /// Leaves out all entries after `t`, in time units. It takes no memory.
    pub fn cut(&mut self, t: u64)
        ensures { self.new ≡ entries_until self.old t }
    {
        let count = count_until::<V>(self.entries.as_slice(), t);
        self.entries.truncate(count);
        self.marks = Marks::none();
    }

    /// The last entry: its moment, in time units, and its value. Each call tells what every timeline keeps.
    pub fn last(&self) -> (u64, V)
        ensures last { last_or None self.now ≡ Some result }
        ensures latest { All (λ entry. entry.0 ≤ result.0) self.now }
        ensures timeline { IsTimeline V.same V.drift self.now }
        ensures stored { All (λ entry. V.can_store entry.0 entry.1) self.now }
    {
        last_entry::<V>(self.entries.as_slice())
    }

    /// Marks what values the entries have, for searches, where they are many; blocks that have their marks keep them. It fails
    /// where memory runs out, and then nothing has changed.
    pub(crate) fn mark(&mut self) -> Result<(), AllocError>
        ensures { self.new ≡ self.old }
    {
        if self.entries.len() >= LEAST {
            let alloc = *self.entries.allocator();
            let marks = mem::replace(&mut self.marks, Marks::none());
            self.marks = marks.extended::<V>(alloc, self.entries.as_slice())?;
        }
        Ok(())
    }

    /// The entries as they are stored, in order of time.
    pub(crate) fn stored(&self) -> &[V::Entry]
        ensures { map V.stored result.now ≡ self.now }
    {
        self.entries.as_slice()
    }
}
