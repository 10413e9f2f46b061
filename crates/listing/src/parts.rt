//! A part of a wave in parts.

ghost use Rattle.std.specs.Prelude.{◌≡◌, ◌<◌, ◌≤◌, ◌-◌, ◌*◌, ◌/◌};
ghost use Rattle.devices.specs.Outgoing.{Adds};
ghost use Rattle.fourstate.specs.Values.{same_value};
ghost use Rattle.waveform.specs.Entries.{standing};
ghost use Rattle.waveform.specs.kept.Timelines.{IsTimeline};
ghost use Rattle.listing.specs.Parts.{has_changes, lines_between, part_start, window_parts};
ghost use Rattle.listing.specs.Windows.{changes_between};

use crate::lines::part_line;
use devices::{Sink, Writer};
use waveform::Wave;

/// Cuts the moments after `from` up to `to`, in time units, into so many parts of one length, up to a moment, and writes for each
/// one in which something changes a line `T FIRST LAST one` or `T FIRST LAST more`. Its cost follows the number of parts: in
/// each the changes are found by halving.
pub fn window_parts<W: Sink>(
    writer: &mut Writer<'_, W>,
    wave: &Wave,
    from: u64,
    to: u64,
    parts: u64,
)
    requires { IsTimeline same_value standing wave.now }
    ensures { Adds writer.old writer.new (window_parts wave.now from to parts) }
{
    for number in 0..parts {
        let start = part_start(from, to, parts, number);
        let end = part_start(from, to, parts, number + 1);
        part(writer, wave, start, end);
    }
}

// The moment behind which the part of this number begins.
fn part_start(from: u64, to: u64, parts: u64, number: u64) -> u64
    requires some { 0 < parts }
    requires within { number ≤ parts }
    ensures { result ≡ part_start from to parts number }
{
    from + share(to.saturating_sub(from), parts, number)
}

// How much of a length so many of its parts take.
fn share(length: u64, parts: u64, number: u64) -> u64
    requires some { 0 < parts }
    requires within { number ≤ parts }
    ensures share { result ≡ number * length / parts }
    ensures within { result ≤ length }
{
    (u128::from(number) * u128::from(length) / u128::from(parts)) as u64
}

// The line of a part, if something changes in it.
fn part<W: Sink>(writer: &mut Writer<'_, W>, wave: &Wave, start: u64, end: u64)
    requires { IsTimeline same_value standing wave.now }
    ensures { Adds writer.old writer.new (lines_between wave.now start end) }
{
    if let Some((time, _)) = wave.next_after(start) {
        if time <= end {
            let has_more = changes(wave, time, end);
            part_line(writer, time, wave.at(start), wave.at(end), has_more);
        }
    }
}

// Whether there is a change after a moment up to another one.
fn changes(wave: &Wave, after: u64, end: u64) -> bool
    requires { IsTimeline same_value standing wave.now }
    ensures { result ≡ has_changes (changes_between wave.now after end) }
{
    match wave.next_after(after) {
        Some((time, _)) => time <= end,
        None => false,
    }
}
