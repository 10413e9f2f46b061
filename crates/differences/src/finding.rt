//! Which nets of two snapshots differ.

ghost use Rattle.std.specs.Prelude.{◌≡◌, ◌≤◌, ◌<◌, ◌+◌, ◌++◌, [], None, Some, is_some, length, if◌then◌else◌, slice_get, true};
ghost use Rattle.bench.specs.Benches.{IsPast};
ghost use Rattle.design.specs.Keys.{netlist};
ghost use Rattle.design.specs.Netlist.{has_net, net_named};
ghost use Rattle.differences.specs.Differences.{first_moment};
ghost use Rattle.differences.specs.kept.Found.{IsPlaceOf, differences_in, moment_beyond, name_at, names_in};

use crate::apart::first_apart;
use crate::room::Room;
use bench::{Bench, Snapshot};
use design::{Design, Name};
use fourstate::Value;
use gatestep::Stepper;
use waveform::laws::value_of_changes;

/// Puts the differences of the nets of the asked version into an empty room, in order.
pub(crate) fn find_all(room: &mut Room, snapshot: &Snapshot, other: &Snapshot)
    requires { room.old.found.items ≡ [] }
    ensures { room.new.found.items ≡ differences_in (first_moment snapshot.now.design other.now.design) 0 (names_in snapshot.now.design) }
{
    let design = snapshot.design();
    design.lawful();
    let mut next = 0;
    for place in 0..design.net_count() {
        let name = design.net_at(place).name();
        let there = place_of(other.design(), name, next);
        next = place_behind(there, next);
        let moment = first_moment(snapshot, place, other, there);
        room.add(place, moment);
    }
}

/// Adds those of the nets that only the other version has, in its order.
pub(crate) fn find_beyond(room: &mut Room, snapshot: &Snapshot, other: &Snapshot)
    requires { length room.old.found.items ≤ length snapshot.now.design.nets }
    ensures { room.new.found.items ≡ room.old.found.items
        ++ differences_in (moment_beyond snapshot.now.design) (length snapshot.now.design.nets) (names_in other.now.design) }
{
    let design = snapshot.design();
    let beyond = other.design();
    design.lawful();
    beyond.lawful();
    let count = design.net_count();
    let mut next = 0;
    for place in 0..beyond.net_count() {
        let name = beyond.net_at(place).name();
        let there = place_of(design, name, next);
        next = place_behind(there, next);
        let moment = moment_beyond(there);
        room.add(count + place, moment);
    }
}

/// What `find_all` does for the present version, with a version from its past. It looks only at nets whose waves are newer.
pub(crate) fn find_changed<S: Stepper + Drop>(room: &mut Room, bench: &Bench<S>, other: &Snapshot)
    requires past { IsPast bench.now other.now }
    requires empty { room.old.found.items ≡ [] }
    ensures { room.new.found.items
        ≡ differences_in (first_moment bench.now.snapshot.design other.now.design) 0 (names_in bench.now.snapshot.design) }
{
    let design = bench.snapshot().design();
    design.lawful();
    for place in 0..design.net_count() {
        let moment = moment_since(bench, place, other);
        room.add(place, moment);
    }
}

/// What `find_beyond` does for the present version, with a version from its past. It looks only where a name may be gone since.
pub(crate) fn find_gone<S: Stepper + Drop>(room: &mut Room, bench: &Bench<S>, other: &Snapshot)
    requires past { IsPast bench.now other.now }
    requires few { length room.old.found.items ≤ length bench.now.snapshot.design.nets }
    ensures { room.new.found.items ≡ room.old.found.items
        ++ differences_in (moment_beyond bench.now.snapshot.design) (length bench.now.snapshot.design.nets) (names_in other.now.design) }
{
    if bench.since_gone() > other.version() {
        find_beyond(room, bench.snapshot(), other);
    }
}

// The first moment at which the net at a place of the present version differs from a version of its past. It has none if it has its
// wave since that version.
fn moment_since<S: Stepper + Drop>(bench: &Bench<S>, place: usize, other: &Snapshot) -> Option<u64>
    requires past { IsPast bench.now other.now }
    requires place { place < length bench.now.snapshot.design.nets }
    ensures { result ≡ first_moment bench.now.snapshot.design other.now.design (name_at bench.now.snapshot.design place) }
{
    value_of_changes::<Value>();
    if bench.since_at(place) <= other.version() {
        return None;
    }
    moment_by_name(bench.snapshot(), place, other)
}

// The same for any two versions. The net of the name is looked for at its place first.
fn moment_by_name(snapshot: &Snapshot, place: usize, other: &Snapshot) -> Option<u64>
    requires { place < length snapshot.now.design.nets }
    ensures { result ≡ first_moment snapshot.now.design other.now.design (name_at snapshot.now.design place) }
{
    let name = snapshot.design().net_at(place).name();
    let there = place_of(other.design(), name, place);
    first_moment(snapshot, place, other, there)
}

// The first moment at which the net at a place of the asked version differs from that of the same name, which the other version
// has `there`.
fn first_moment(
    snapshot: &Snapshot,
    place: usize,
    other: &Snapshot,
    there: Option<usize>,
) -> Option<u64>
    requires place { place < length snapshot.now.design.nets }
    requires there { IsPlaceOf other.now.design (name_at snapshot.now.design place) there }
    ensures { result ≡ first_moment snapshot.now.design other.now.design (name_at snapshot.now.design place) }
{
    snapshot.design().lawful();
    match there {
        None => Some(0),
        Some(there) => moment_in_both(snapshot, place, other, there),
    }
}

// That of a net that both versions have.
fn moment_in_both(snapshot: &Snapshot, place: usize, other: &Snapshot, there: usize) -> Option<u64>
    requires place { place < length snapshot.now.design.nets }
    requires there { there < length other.now.design.nets }
    requires named { slice_get other.now.design.nets there ≡ net_named other.now.design (name_at snapshot.now.design place) }
    ensures { result ≡ first_moment snapshot.now.design other.now.design (name_at snapshot.now.design place) }
{
    snapshot.design().lawful();
    value_of_changes::<Value>();
    let wave = snapshot.wave_at(place);
    let another = other.wave_at(there);
    let end = snapshot.horizon().min(other.horizon());
    first_apart(wave, another, end)
}

// The first moment of a net that the other version has, and the asked one `there`.
fn moment_beyond(there: Option<usize>) -> Option<u64>
    ensures { result ≡ (if is_some there then None else Some 0) }
{
    match there {
        Some(_) => None,
        None => Some(0),
    }
}

// The place of the net of a name, which is looked for at a place first.
fn place_of(design: &Design, name: &Name, first: usize) -> Option<usize>
    ensures place { IsPlaceOf (netlist design.now) name.now result }
    ensures there { is_some result ≡ has_net (netlist design.now) name.now }
{
    if is_at(design, first, name) {
        return Some(first);
    }
    design.net_place(name.as_str())
}

// The net at a place has this name.
fn is_at(design: &Design, place: usize, name: &Name) -> bool
    ensures within { result ≡ true → place < length (netlist design.now).nets }
    ensures net { result ≡ true → slice_get (netlist design.now).nets place ≡ net_named (netlist design.now) name.now }
    ensures there { result ≡ true → has_net (netlist design.now) name.now ≡ true }
{
    if place >= design.net_count() {
        return false;
    }
    design.lawful();
    design.net_at(place).name().as_str() == name.as_str()
}

// Where the next net is looked for first: behind the last one that was found.
fn place_behind(place: Option<usize>, next: usize) -> usize {
    match place {
        Some(place) => place.saturating_add(1),
        None => next,
    }
}
