//! Entries of a timeline, one after another.

ghost use Rattle.std.specs.Prelude.{◌≡◌, ◌+◌, ◌<◌, ◌≤◌, ◌++◌, ◌∷◌, [], map, take, drop, length, slice_get, All, Some, OnOk, OnErr, IfOk};
ghost use Rattle.std.specs.List.{find, last_or};
ghost use Rattle.std.specs.Vec.{vec_capacity, vec_len};
ghost use Rattle.waveform.specs.Timelines.{latest, entries_before, entries_until, entries_after, value_by};
ghost use Rattle.waveform.specs.kept.Timelines.{AreInTurn, IsTimeline, is_reached, pushed};
ghost use Rattle.waveform.specs.kept.Joins.{joined, spliced};
ghost use Rattle.waveform.specs.declared.times.TheConstants.{TIME_END};

use crate::sample::Sample;
use std::alloc::{AllocError, Global};

/// How many entries a timeline that is opened has room for.
pub const FIRST_ROOM: usize = 4;

/// For how many entries there is to be room in a function that goes on from another one, beyond those that this one has.
pub const SPARE_ROOM: usize = 2;

/// For how many more entries there is to be room where there is none left, for each that there is.
const GROWTH: usize = 2;

/// Makes room for one more entry, if there is none.
#[inline(always)]
fn make_room<V: Sample>(entries: &mut Vec<V::Entry>) -> Result<(), AllocError>
    ensures same { entries.new.items ≡ entries.old.items }
    ensures room { OnOk result (vec_len entries.new < vec_capacity entries.new) }
{
    if entries.len() == entries.capacity() {
        grow::<V>(entries)?;
    }
    Ok(())
}

/// Makes the room of a timeline three times what it is: so it is moved more seldom than by doubling.
fn grow<V: Sample>(entries: &mut Vec<V::Entry>) -> Result<(), AllocError>
    ensures same { entries.new.items ≡ entries.old.items }
    ensures room { OnOk result (vec_len entries.new < vec_capacity entries.new) }
{
    let more = entries.len().saturating_mul(GROWTH);
    entries.reserve(more.max(1))?;
    Ok(())
}

/// The last entry has become this value at `t`.
#[inline(always)]
pub fn reaches<V: Sample>(entries: &[V::Entry], t: u64, value: V) -> bool
    ensures { result ≡ is_reached V.same V.drift (map V.stored entries.now) t value }
{
    match entries.last() {
        Some(entry) => value.is_same(V::sample(entry).drifted(t)),
        None => false,
    }
}

/// Adds the value from `t` on, where the entries don't have it by themselves.
#[inline(always)]
pub fn push_value<V: Sample>(
    entries: &mut Vec<V::Entry>,
    t: u64,
    value: V,
) -> Result<(), AllocError>
    requires { V.can_store t value }
    ensures ok { OnOk result (map V.stored entries.new.items ≡ pushed V.same V.drift (map V.stored entries.old.items) t value) }
    ensures err { OnErr result (entries.new.items ≡ entries.old.items) }
{
    if !reaches::<V>(entries.as_slice(), t, value) {
        append::<V>(entries, value.entry(t))?;
    }
    Ok(())
}

/// Adds an entry.
#[inline(always)]
pub fn append<V: Sample>(entries: &mut Vec<V::Entry>, entry: V::Entry) -> Result<(), AllocError>
    ensures ok { OnOk result (map V.stored entries.new.items ≡ map V.stored entries.old.items ++ V.stored entry ∷ []) }
    ensures err { OnErr result (entries.new.items ≡ entries.old.items) }
{
    make_room::<V>(entries)?;
    entries.push_reserved(entry);
    Ok(())
}

/// How many entries lie at `t` or before.
pub fn count_until<V: Sample>(entries: &[V::Entry], t: u64) -> usize
    requires { AreInTurn V.same V.drift None (map V.stored entries.now) }
    ensures within { result ≤ length entries.now }
    ensures until { map V.stored (take result entries.now) ≡ entries_until (map V.stored entries.now) t }
    ensures after { map V.stored (drop result entries.now) ≡ entries_after (map V.stored entries.now) t }
{
    entries.partition_point(|entry| V::time(entry) <= t)
}

/// How many entries lie at `t` or before. From one of them on those that follow are gone through one after another, where the last
/// of the first `near` lies there; so it is quick for a place that was found for a moment shortly before.
#[inline(always)]
pub fn count_near<V: Sample>(entries: &[V::Entry], near: usize, t: u64) -> usize
    requires { AreInTurn V.same V.drift None (map V.stored entries.now) }
    ensures within { result ≤ length entries.now }
    ensures until { map V.stored (take result entries.now) ≡ entries_until (map V.stored entries.now) t }
{
    if near == 0 || near > entries.len() || V::time(&entries[near - 1]) > t {
        return count_until::<V>(entries, t);
    }
    let mut count = near;
    while count < entries.len() && V::time(&entries[count]) <= t {
        count += 1;
    }
    count
}

/// The last entry, as a moment and a value.
pub fn last_entry<V: Sample>(entries: &[V::Entry]) -> (u64, V)
    requires { 0 < length entries.now }
    ensures { last_or None (map V.stored entries.now) ≡ Some result }
{
    let entry = &entries[entries.len() - 1];
    (V::time(entry), V::sample(entry))
}

/// The latest entry at `t` or before, as a moment and a value.
pub fn latest_entry<V: Sample>(entries: &[V::Entry], t: u64) -> (u64, V)
    requires { IsTimeline V.same V.drift (map V.stored entries.now) }
    ensures { latest (map V.stored entries.now) t ≡ Some result }
{
    last_entry::<V>(&entries[..count_until::<V>(entries, t)])
}

/// The entry at this place, as a moment and a value.
pub fn entry_at<V: Sample>(entries: &[V::Entry], place: usize) -> Option<(u64, V)>
    ensures { result ≡ slice_get (map V.stored entries.now) place }
{
    if place < entries.len() {
        let entry = &entries[place];
        Some((V::time(entry), V::sample(entry)))
    } else {
        None
    }
}

/// The first entry of this value, as a moment and a value.
pub fn first_to<V: Sample>(entries: &[V::Entry], value: V) -> Option<(u64, V)>
    ensures { result ≡ find (λ entry. V.same entry.1 value) (map V.stored entries.now) }
{
    for entry in entries {
        let sample = V::sample(entry);
        if sample.is_same(value) {
            return Some((V::time(entry), sample));
        }
    }
    None
}

/// The value at `t`; it can be stored there, where that moment can be.
pub fn value_at<V: Sample>(entries: &[V::Entry], t: u64) -> V
    requires timeline { IsTimeline V.same V.drift (map V.stored entries.now) }
    requires stored { All (λ entry. V.can_store entry.0 entry.1) (map V.stored entries.now) }
    ensures value { result ≡ value_by V.drift V.start (map V.stored entries.now) t }
    ensures can { t < TIME_END → V.can_store t result }
{
    latest_entry::<V>(entries, t).1.drifted(t)
}

/// The value at `t`. `near` is how many entries lie at that moment or before, once it is found, and where it is looked for first.
#[inline(always)]
pub fn value_near<V: Sample>(entries: &[V::Entry], near: &mut usize, t: u64) -> V
    requires { IsTimeline V.same V.drift (map V.stored entries.now) }
    ensures { result ≡ value_by V.drift V.start (map V.stored entries.now) t }
{
    *near = count_near::<V>(entries, *near, t);
    last_entry::<V>(&entries[..*near]).1.drifted(t)
}

/// Adds, from `t` on, the function of the entries `source`. After an error some of it may have been added.
pub fn join<V: Sample>(
    entries: &mut Vec<V::Entry>,
    t: u64,
    source: &[V::Entry],
) -> Result<(), AllocError>
    requires within { t < TIME_END }
    requires timeline { IsTimeline V.same V.drift (map V.stored source.now) }
    requires stored { All (λ entry. V.can_store entry.0 entry.1) (map V.stored source.now) }
    ensures { OnOk result (map V.stored entries.new.items
        ≡ joined V.same V.drift V.start (map V.stored entries.old.items) t (map V.stored source.now)) }
{
    push_value::<V>(entries, t, value_at::<V>(source, t))?;
    let (_, later) = source.split_at(count_until::<V>(source, t));
    entries.extend_from_slice(later)?;
    Ok(())
}

/// The entries before `t`.
pub fn before<V: Sample>(entries: &[V::Entry], t: u64) -> &[V::Entry]
    requires { AreInTurn V.same V.drift None (map V.stored entries.now) }
    ensures { map V.stored result.now ≡ entries_before (map V.stored entries.now) t }
{
    if t == 0 {
        &entries[..0]
    } else {
        &entries[..count_until::<V>(entries, t - 1)]
    }
}

/// The entries at `t` or before; they are a timeline too.
pub fn up_to<V: Sample>(entries: &[V::Entry], t: u64) -> &[V::Entry]
    requires timeline { IsTimeline V.same V.drift (map V.stored entries.now) }
    requires stored { All (λ entry. V.can_store entry.0 entry.1) (map V.stored entries.now) }
    ensures value { map V.stored result.now ≡ entries_until (map V.stored entries.now) t }
    ensures timeline { IsTimeline V.same V.drift (map V.stored result.now) }
    ensures stored { All (λ entry. V.can_store entry.0 entry.1) (map V.stored result.now) }
{
    &entries[..count_until::<V>(entries, t)]
}

/// The entries `mine` with the function of the entries `theirs` at the moments from `begin` up to and with `end`.
pub fn splice<V: Sample>(
    alloc: Global,
    mine: &[V::Entry],
    begin: u64,
    end: u64,
    theirs: &[V::Entry],
) -> Result<Vec<V::Entry>, AllocError>
    requires order { begin ≤ end }
    requires within { end + 1 < TIME_END }
    requires timeline { IsTimeline V.same V.drift (map V.stored mine.now) }
    requires stored { All (λ entry. V.can_store entry.0 entry.1) (map V.stored mine.now) }
    requires their_timeline { IsTimeline V.same V.drift (map V.stored theirs.now) }
    requires theirs_stored { All (λ entry. V.can_store entry.0 entry.1) (map V.stored theirs.now) }
    ensures { IfOk result (λ entries. map V.stored entries.items
        ≡ spliced V.same V.drift V.start (map V.stored mine.now) begin end (map V.stored theirs.now)) }
{
    let mut entries = Vec::from_slice(alloc, before::<V>(mine, begin))?;
    join::<V>(&mut entries, begin, up_to::<V>(theirs, end))?;
    join::<V>(&mut entries, end + 1, mine)?;
    Ok(entries)
}
