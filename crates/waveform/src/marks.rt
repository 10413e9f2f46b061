//! Which values there are in the blocks of a timeline, so that a search passes over those without its value.

ghost use Rattle.std.specs.Prelude.{◌≡◌, ◌+◌, ◌*◌, ◌/◌, ◌-◌, ◌<◌, ◌≤◌, ℕ, List, map, take, drop, length, not, slice_index_or, [], true, IfOk, OnOk};
ghost use Rattle.std.specs.List.{find};
ghost use Rattle.waveform.specs.kept.Marks.{AreMarks, mark_of};

use crate::digits::VALUES;
use crate::entries::first_to;
use crate::sample::Sample;
use std::alloc::{AllocError, Global};
use std::marker::Model;

/// How many entries a block has.
pub const BLOCK: usize = 256;

/// Timelines with fewer entries have no marks: a search through all of them takes some microseconds.
pub const LEAST: usize = 16 * BLOCK;

/// Of the first blocks of a timeline, for each digit, whether an entry of the block has it (own). There may be none.
#[derive(Drop)]
pub struct Marks {
    // Behind a pointer, since few timelines have marks.
    seen: Option<Box<Vec<bool>>>,
}

impl Model for Marks {
    ghost use Rattle.std.specs.Prelude.{Bool, List, []};
    ghost use Rattle.std.specs.Option.{option_map_or};

    ghost Value = { List Bool };

    ghost view = { λ a. option_map_or (λ seen. seen.value.items) a.seen [] };
}

impl Marks {
    /// No marks.
    pub fn none() -> Marks
        ensures { result ≡ [] }
    {
        Marks { seen: None }
    }

    /// The marks of these entries, where these are those of the first ones among them: only blocks that have none are gone
    /// through. It fails where memory runs out.
    pub fn extended<V: Sample>(
        self,
        alloc: Global,
        entries: &[V::Entry],
    ) -> Result<Marks, AllocError>
        requires { AreMarks V.digit self (map V.stored entries.now) }
        ensures { IfOk result (λ marks. AreMarks V.digit marks (map V.stored entries.now)) }
    {
        let mut seen = match self.seen {
            Some(seen) => Box::into_inner(seen),
            None => Vec::new(alloc),
        };
        see_more::<V>(&mut seen, entries)?;
        let seen = Box::new(alloc, seen)?;
        Ok(Marks { seen: Some(seen) })
    }

    /// The marks of the first entries, so many, of those whose marks these are. It fails where memory runs out.
    pub fn of_first<V: Sample>(&self, alloc: Global, count: usize) -> Result<Marks, AllocError>
        ensures { IfOk result (λ marks. (entries : List (ℕ × V)) → AreMarks V.digit self.now entries → AreMarks V.digit marks (take count entries)) }
    {
        let Some(seen) = &self.seen else {
            return Ok(Marks::none());
        };
        let most = (count / BLOCK * VALUES as usize).min(seen.len());
        let mut first = Vec::with_capacity(alloc, most)?;
        first.extend_from_slice(&seen[..most])?;
        let first = Box::new(alloc, first)?;
        Ok(Marks { seen: Some(first) })
    }

    /// The marks say that no entry of the block with this place has the digit.
    pub fn is_without(&self, place: usize, digit: u64) -> bool
        requires { digit < 4 }
        ensures { result ≡ not (slice_index_or self.now (mark_of place digit) true) }
    {
        match &self.seen {
            None => false,
            Some(seen) => {
                let at = place / BLOCK * VALUES as usize + digit as usize;
                at < seen.len() && !seen[at]
            }
        }
    }
}

/// Adds which digits the entries of each whole block have, of the blocks that have no marks yet.
fn see_more<V: Sample>(seen: &mut Vec<bool>, entries: &[V::Entry]) -> Result<(), AllocError>
    requires { AreMarks V.digit seen.old.items (map V.stored entries.now) }
    ensures { OnOk result (AreMarks V.digit seen.new.items (map V.stored entries.now)) }
{
    let marked = seen.len() / VALUES as usize;
    let blocks = entries.len() / BLOCK;
    seen.resize(blocks * VALUES as usize, false)?;
    for place in marked * BLOCK..blocks * BLOCK {
        let digit = V::sample(&entries[place]).digit();
        seen[place / BLOCK * VALUES as usize + digit as usize] = true;
    }
    Ok(())
}

/// The first entry of this value from a place on, as a moment and a value.
pub fn first_from<V: Sample>(
    entries: &[V::Entry],
    marks: &Marks,
    place: usize,
    value: V,
) -> Option<(u64, V)>
    requires { AreMarks V.digit marks.now (map V.stored entries.now) }
    ensures { result ≡ find (λ entry. V.same entry.1 value) (map V.stored (drop place entries.now)) }
{
    let mut from = place;
    while from < entries.len() {
        let end = (from / BLOCK + 1).saturating_mul(BLOCK).min(entries.len());
        let found = first_in_block::<V>(entries, marks, from, end, value);
        if found.is_some() {
            return found;
        }
        from = end;
    }
    None
}

/// The first entry of this value among those of a block from the place `from` on, up to the place `end`.
fn first_in_block<V: Sample>(
    entries: &[V::Entry],
    marks: &Marks,
    from: usize,
    end: usize,
    value: V,
) -> Option<(u64, V)>
    requires marks { AreMarks V.digit marks.now (map V.stored entries.now) }
    requires order { from < end }
    requires within { end ≤ length entries.now }
    requires block { end ≤ (from / 256 + 1) * 256 }
    ensures { result ≡ find (λ entry. V.same entry.1 value) (map V.stored (take (end - from) (drop from entries.now))) }
{
    if marks.is_without(from, value.digit()) {
        return None;
    }
    first_to::<V>(&entries[from..end], value)
}
