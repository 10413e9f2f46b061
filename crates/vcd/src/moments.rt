//! The changes of all nets, moment by moment.

ghost use Rattle.std.specs.Prelude.{◌≡◌, ◌≤◌, ◌<◌, ◌+◌, ◌++◌, ℕ, suc};
ghost use Rattle.devices.specs.Outgoing.{Adds};
ghost use Rattle.vcd.specs.Changes.{change_lines, lines_below, moment_lines, time_line};
ghost use Rattle.vcd.specs.kept.Kept.{IsAhead};

use crate::lines::time_line;
use crate::upcoming::{NEVER, Upcoming};
use crate::waves::Waves;
use design::MAX_NETS;
use devices::{Sink, Writer};
use waveform::Change;

/// Writes the values at 0, then the changes at each later moment that has some, and the last moment. From one moment to the
/// next it looks only at the first change to come of each group of blocks of nets, and then into the groups, and into their
/// blocks, that have a change.
// Not inlined: what its tables take of the stack is paid for at each call of the function that has them.
#[inline(never)]
pub(crate) fn moments<W: Sink>(writer: &mut Writer<'_, W>, waves: &Waves<'_>)
    ensures { Adds writer.old writer.new (lines_below waves.now.waves waves.now.horizon (suc waves.now.horizon)) }
{
    waves.lawful();
    let horizon = waves.horizon();
    let mut left: [&[Change]; MAX_NETS] = [&[]; MAX_NETS];
    let mut upcoming = Upcoming::at_start(waves, &mut left);
    first_moment(writer, waves, &mut upcoming, &mut left);
    let mut t = 0;
    while t < horizon {
        t = upcoming.first_time(waves, horizon);
        later_moment(writer, waves, &mut upcoming, &mut left, t);
    }
}

fn first_moment<'a, W: Sink>(
    writer: &mut Writer<'_, W>,
    waves: &Waves<'a>,
    upcoming: &mut Upcoming,
    left: &mut [&'a [Change]],
)
    requires { IsAhead waves.now.waves 0 0 upcoming.old left.old }
    ensures ahead { IsAhead waves.now.waves 1 0 upcoming.new left.new }
    ensures text { Adds writer.old writer.new (moment_lines waves.now.waves waves.now.horizon 0) }
{
    time_line(writer, 0);
    writer.text(b"$dumpvars\n");
    upcoming.pass(waves, left, 0, writer);
    writer.text(b"$end\n");
}

fn later_moment<'a, W: Sink>(
    writer: &mut Writer<'_, W>,
    waves: &Waves<'a>,
    upcoming: &mut Upcoming,
    left: &mut [&'a [Change]],
    t: u64,
)
    requires moment { t < NEVER }
    requires ahead { IsAhead waves.now.waves t 0 upcoming.old left.old }
    ensures ahead { IsAhead waves.now.waves (t + 1) 0 upcoming.new left.new }
    ensures text { Adds writer.old writer.new (time_line t ++ change_lines waves.now.waves t) }
{
    time_line(writer, t);
    upcoming.pass(waves, left, t, writer);
}
