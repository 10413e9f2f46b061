//! A part of a wave.

ghost use Rattle.std.specs.Prelude.{◌≤◌};
ghost use Rattle.devices.specs.Outgoing.{Adds};
ghost use Rattle.fourstate.specs.Values.{same_value};
ghost use Rattle.waveform.specs.Entries.{standing};
ghost use Rattle.waveform.specs.kept.Timelines.{IsTimeline};
ghost use Rattle.listing.specs.Listings.{change_lines};
ghost use Rattle.listing.specs.Windows.{changes_between, window};

use crate::lines::change;
use devices::{Sink, Writer};
use waveform::Wave;

/// Writes lines `T V`: the value at the moment `from`, in time units, and then each change after it up to the moment `to`.
/// Its cost follows what it writes.
pub fn window<W: Sink>(writer: &mut Writer<'_, W>, wave: &Wave, from: u64, to: u64)
    requires { IsTimeline same_value standing wave.now }
    ensures { Adds writer.old writer.new (change_lines (window wave.now from to)) }
{
    change(writer, from, wave.at(from));
    if from < to {
        changes_between(writer, wave, from, to);
    }
}

fn changes_between<W: Sink>(writer: &mut Writer<'_, W>, wave: &Wave, from: u64, to: u64)
    requires timeline { IsTimeline same_value standing wave.now }
    requires order { from ≤ to }
    ensures { Adds writer.old writer.new (change_lines (changes_between wave.now from to)) }
{
    let mut last = from;
    while let Some((time, value)) = wave.next_after(last) {
        if time > to {
            return;
        }
        change(writer, time, value);
        last = time;
    }
}
