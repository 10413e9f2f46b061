//! Timelines that grow together.

ghost use Rattle.std.specs.Prelude.{◌≡◌, ◌<◌, ◌++◌, ◌∷◌, [], map, length, All, IfOk, OnOk, slice_index_or, slice_set};
ghost use Rattle.waveform.specs.kept.Notes.{AreNoted, MayBeNoted, noted, with_note, with_notes};
ghost use Rattle.waveform.specs.kept.Timelines.{is_reached, pushed};

use crate::sample::Sample;
use crate::timeline::Timeline;
use crate::writing::{room, write_notes};
use std::alloc::{AllocError, Global};
use std::marker::Model;

/// Timelines by place, which grow together: an entry is noted first, and many are written behind those of their timelines at
/// a time, timeline by timeline (own). The timelines lie far apart, and so a processor waits once for each, and not for each
/// entry. Contracts see the timelines with all that is noted.
#[derive(Drop)]
pub struct Lines<V: Sample> {
    lines: Vec<Timeline<V>>,
    notes: Vec<(usize, V::Entry)>,
    // How many entries are noted before they are written.
    room: usize,
}

impl<V: Sample> Model for Lines<V> {
    ghost use Rattle.std.specs.Prelude.{ℕ, List, map};
    ghost use Rattle.waveform.specs.kept.Notes.{AreNoted, noted, with_notes};

    ghost Value = { List (List (ℕ × V)) };

    ghost view = { λ a. with_notes a.lines.items (map (noted V.stored) a.notes.items) };

    ghost invariant = { λ a. AreNoted V.same V.drift V.can_store a.lines.items (map (noted V.stored) a.notes.items) };
}

impl<V: Sample> Lines<V> {
    /// These timelines, the first one at place 0.
    pub fn new(alloc: Global, lines: Vec<Timeline<V>>) -> Lines<V>
        ensures { result ≡ lines.items }
    {
        let room = room(lines.len());
        Lines {
            lines,
            notes: Vec::new(alloc),
            room,
        }
    }

    /// Gives the function at a place this value from `t` on, in time units, a moment after all its entries, where it has the
    /// value `known` by itself. It fails where memory runs out, and then what the timelines have is not known.
    #[inline(always)]
    pub fn push_known(&mut self, place: usize, t: u64, known: V, value: V) -> Result<(), AllocError>
        requires there { place < length self.old }
        requires later { All (λ entry. entry.0 < t) (slice_index_or self.old place []) }
        requires can { V.can_store t value }
        requires known { is_reached V.same V.drift (slice_index_or self.old place []) t value ≡ V.same value known }
        ensures { OnOk result (self.new ≡ slice_set self.old place (pushed V.same V.drift (slice_index_or self.old place []) t value)) }
    {
        if !value.is_same(known) {
            self.note(place, value.entry(t))?;
        }
        Ok(())
    }

    /// Notes an entry for the timeline at a place.
    #[inline(always)]
    fn note(&mut self, place: usize, entry: V::Entry) -> Result<(), AllocError>
        requires { MayBeNoted V.same V.drift V.can_store self.old (place, V.stored entry) }
        ensures { OnOk result (self.new ≡ with_note self.old (place, V.stored entry)) }
    {
        if self.notes.len() >= self.room {
            self.write()?;
        }
        self.notes.push((place, entry))?;
        Ok(())
    }

    /// Writes what is noted.
    fn write(&mut self) -> Result<(), AllocError>
        ensures { OnOk result (self.new ≡ self.old) }
    {
        let written = write_notes::<V>(&mut self.lines, self.notes.as_slice());
        self.notes.clear();
        written
    }

    /// The timelines. It fails where memory runs out.
    pub fn finish(self) -> Result<Vec<Timeline<V>>, AllocError>
        ensures { IfOk result (λ lines. lines.items ≡ self) }
    {
        let Lines { lines, notes, .. } = self;
        let mut lines = lines;
        write_notes::<V>(&mut lines, notes.as_slice())?;
        Ok(lines)
    }
}
