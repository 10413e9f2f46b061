//! The lines of the nets that differ.

ghost use Rattle.std.specs.Prelude.{◌≡◌, ◌+◌, ◌<◌, ◌++◌, All, Some, length, slice_get};
ghost use Rattle.std.specs.List.{flat_map};
ghost use Rattle.bench.specs.Benches.{IsPast};
ghost use Rattle.devices.specs.Outgoing.{Adds};
ghost use Rattle.design.specs.Keys.{netlist};
ghost use Rattle.differences.specs.Differences.{difference_line, difference_lines};
ghost use Rattle.differences.specs.kept.Found.{all_found, line_of, names_in};

use crate::finding::{find_all, find_beyond, find_changed, find_gone};
use crate::room::{Difference, Room};
use bench::{Bench, Snapshot};
use design::{Design, Name};
use devices::{Sink, Writer};
use gatestep::Stepper;

/// Writes a line `N T` for each net that differs from the version `other`: its name, and the first moment, in time units, at which
/// it does. A net that only one of both versions has differs from 0 on; of one that both have the values are compared up to the
/// lesser of the two horizons. Lines are in order of moments, and those of one moment in the order of the nets of the version that
/// is asked, before nets that only the other one has, in its order. It takes no memory.
pub fn differences<W: Sink>(
    writer: &mut Writer<'_, W>,
    snapshot: &Snapshot,
    other: &Snapshot,
    room: &mut Room,
)
    ensures { Adds writer.old writer.new (difference_lines snapshot.now.design other.now.design) }
{
    room.clear();
    find_all(room, snapshot, other);
    find_beyond(room, snapshot, other);
    write_found(writer, snapshot, other, room);
}

/// The same lines for the present version of a bench and a version from its past. Its cost follows the nets whose waves are newer than
/// that version; of each other net it asks the version alone.
pub fn differences_since<W: Sink, S: Stepper + Drop>(
    writer: &mut Writer<'_, W>,
    bench: &Bench<S>,
    other: &Snapshot,
    room: &mut Room,
)
    requires { IsPast bench.now other.now }
    ensures { Adds writer.old writer.new (difference_lines bench.now.snapshot.design other.now.design) }
{
    room.clear();
    find_changed(room, bench, other);
    find_gone(room, bench, other);
    write_found(writer, bench.snapshot(), other, room);
}

// Writes the lines of the differences that were found, in order.
fn write_found<W: Sink>(
    writer: &mut Writer<'_, W>,
    snapshot: &Snapshot,
    other: &Snapshot,
    room: &mut Room,
)
    requires { room.old.found.items ≡ all_found snapshot.now.design other.now.design }
    ensures { Adds writer.old writer.new (difference_lines snapshot.now.design other.now.design) }
{
    room.sort();
    write_all(writer, snapshot.design(), other.design(), room);
}

// Writes the lines of differences.
fn write_all<W: Sink>(writer: &mut Writer<'_, W>, design: &Design, other: &Design, room: &Room)
    requires { All (λ found. found.number < length (netlist design.now).nets + length (netlist other.now).nets) room.now.found.items }
    ensures { Adds writer.old writer.new
        (flat_map (line_of (names_in (netlist design.now) ++ names_in (netlist other.now))) room.now.found.items) }
{
    for difference in &room.found {
        let name = name_of(design, other, difference.number);
        difference_line(writer, name, difference.moment);
    }
}

// The name of a number: those of the nets of the one design, and behind them those of the other one.
fn name_of<'a>(design: &'a Design, other: &'a Design, number: usize) -> &'a Name
    requires { number < length (netlist design.now).nets + length (netlist other.now).nets }
    ensures { slice_get (names_in (netlist design.now) ++ names_in (netlist other.now)) number ≡ Some result.now }
{
    let count = design.net_count();
    if number < count {
        design.net_at(number).name()
    } else {
        other.net_at(number - count).name()
    }
}

fn difference_line<W: Sink>(writer: &mut Writer<'_, W>, name: &Name, moment: u64)
    ensures { Adds writer.old writer.new (difference_line name.now moment) }
{
    writer.text(name.as_str().as_bytes());
    writer.text(b" ");
    writer.number(moment);
    writer.text(b"\n");
}
