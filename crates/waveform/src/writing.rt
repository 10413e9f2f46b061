//! Entries that are noted are written behind those of their timelines.

ghost use Rattle.std.specs.Prelude.{◌≡◌, ◌<◌, ◌^◌, ◌++◌, [], All, length, map, replicate, IfOk, OnOk};
ghost use Rattle.waveform.specs.kept.Links.{AreLinks};
ghost use Rattle.waveform.specs.kept.Notes.{AreNoted, MayFollow, entries_at, noted, with_notes};

use crate::sample::Sample;
use crate::timeline::Timeline;
use std::alloc::{AllocError, Global};

/// How many timelines there are to each note, or more, where so few entries are noted that they are written one by one.
const LINES_TO_A_NOTE: usize = 4;
/// Fewer timelines than this stay near a processor by themselves.
const FEW_LINES: usize = 4_096;
/// How many entries are noted for these before they are written.
const NOTES_OF_FEW_LINES: usize = 4_096;
/// How many are noted for each of more timelines, taken together.
const NOTES_TO_A_LINE: usize = 8;
/// How many are noted at most.
const MOST_NOTES: usize = 131_072;

/// The notes of each place, in order, by their numbers (own). The first note has number 1, and 0 stands for none. A number
/// has 32 bits, so that all of them stay in a processor's cache.
#[derive(Drop)]
struct Links {
    /// The number of the first note, by place.
    first: Vec<u32>,
    /// The number of the next note of the same place, by note.
    next: Vec<u32>,
}

/// How many entries are noted for so many timelines before they are written (own).
pub fn room(lines: usize) -> usize {
    if lines < FEW_LINES {
        NOTES_OF_FEW_LINES
    } else {
        lines.saturating_mul(NOTES_TO_A_LINE).min(MOST_NOTES)
    }
}

/// Writes entries behind those of the timelines at their places. It fails where memory runs out, and then what the timelines
/// have is not known.
pub fn write_notes<V: Sample>(
    lines: &mut Vec<Timeline<V>>,
    notes: &[(usize, V::Entry)],
) -> Result<(), AllocError>
    requires { AreNoted V.same V.drift V.can_store lines.old.items (map (noted V.stored) notes.now) }
    ensures { OnOk result (lines.new.items ≡ with_notes lines.old.items (map (noted V.stored) notes.now)) }
{
    let are_few = lines.len() < FEW_LINES || notes.len() <= lines.len() / LINES_TO_A_NOTE;
    if are_few || notes.len() > u32::MAX as usize {
        write_one_by_one::<V>(lines, notes)
    } else {
        write_by_line::<V>(lines, notes)
    }
}

/// Writes each entry when its turn comes.
fn write_one_by_one<V: Sample>(
    lines: &mut Vec<Timeline<V>>,
    notes: &[(usize, V::Entry)],
) -> Result<(), AllocError>
    requires { AreNoted V.same V.drift V.can_store lines.old.items (map (noted V.stored) notes.now) }
    ensures { OnOk result (lines.new.items ≡ with_notes lines.old.items (map (noted V.stored) notes.now)) }
{
    for i in 0..notes.len() {
        let note = notes[i];
        let line = &mut lines[note.0];
        line.append(note.1)?;
    }
    Ok(())
}

/// Writes all entries of the first timeline, then all of the next one, and so on. The timelines lie far apart, and so a
/// processor waits for the memory of each only once.
fn write_by_line<V: Sample>(
    lines: &mut Vec<Timeline<V>>,
    notes: &[(usize, V::Entry)],
) -> Result<(), AllocError>
    requires few { length notes.now < 2 ^ 32 }
    requires noted { AreNoted V.same V.drift V.can_store lines.old.items (map (noted V.stored) notes.now) }
    ensures { OnOk result (lines.new.items ≡ with_notes lines.old.items (map (noted V.stored) notes.now)) }
{
    let links = link_notes(*lines.allocator(), lines.len(), notes)?;
    write_lines::<V>(lines, notes, &links)
}

/// Links the notes of each place.
fn link_notes<E: Copy>(
    alloc: Global,
    places: usize,
    notes: &[(usize, E)],
) -> Result<Links, AllocError>
    requires few { length notes.now < 2 ^ 32 }
    requires within { All (λ note. note.0 < places) notes.now }
    ensures { IfOk result (λ links. AreLinks notes.now places links) }
{
    let mut first = zeros(alloc, places)?;
    let mut next = zeros(alloc, notes.len())?;
    for i in (0..notes.len()).rev() {
        let place = notes[i].0;
        next[i] = first[place];
        first[place] = (i + 1) as u32;
    }
    Ok(Links { first, next })
}

/// So many times 0.
fn zeros(alloc: Global, count: usize) -> Result<Vec<u32>, AllocError>
    ensures { IfOk result (λ zeros. zeros.items ≡ replicate count 0) }
{
    let mut zeros = Vec::with_capacity(alloc, count)?;
    zeros.resize(count, 0)?;
    Ok(zeros)
}

/// Writes the entries of one timeline after another.
fn write_lines<V: Sample>(
    lines: &mut Vec<Timeline<V>>,
    notes: &[(usize, V::Entry)],
    links: &Links,
) -> Result<(), AllocError>
    requires links { AreLinks notes.now (length lines.old.items) links.now }
    requires noted { AreNoted V.same V.drift V.can_store lines.old.items (map (noted V.stored) notes.now) }
    ensures { OnOk result (lines.new.items ≡ with_notes lines.old.items (map (noted V.stored) notes.now)) }
{
    for place in 0..lines.len() {
        write_line::<V>(&mut lines[place], notes, links, place)?;
    }
    Ok(())
}

/// Writes the entries of the timeline at a place.
fn write_line<V: Sample>(
    line: &mut Timeline<V>,
    notes: &[(usize, V::Entry)],
    links: &Links,
    place: usize,
) -> Result<(), AllocError>
    requires place { place < length links.now.first.items }
    requires links { AreLinks notes.now (length links.now.first.items) links.now }
    requires follow { MayFollow V.same V.drift V.can_store line.old (map V.stored (entries_at place notes.now)) }
    ensures { OnOk result (line.new ≡ line.old ++ map V.stored (entries_at place notes.now)) }
{
    let mut number = links.first[place] as usize;
    while number > 0 {
        line.append(notes[number - 1].1)?;
        number = links.next[number - 1] as usize;
    }
    Ok(())
}
