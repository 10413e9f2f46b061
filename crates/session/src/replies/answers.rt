//! The lines that answer questions.

ghost use Rattle.std.specs.Prelude.{◌≡◌};
ghost use Rattle.devices.specs.Outgoing.{Adds};
ghost use Rattle.fourstate.specs.Values.{same_value};
ghost use Rattle.waveform.specs.Entries.{standing};
ghost use Rattle.waveform.specs.kept.Timelines.{IsTimeline};
ghost use Rattle.session.specs.Questions.{query_lines};
ghost use Rattle.session.specs.Replies.{change_or_none, value_line};

use crate::commands::Query;
use crate::replies::lines::wave;
use devices::{Sink, Writer};
use fourstate::Value;
use listing::{change, window, window_parts};
use waveform::Wave;

/// The lines that answer what is asked about a wave. Its changes are found by halving; only a search for a value walks
/// over the changes that it skips.
pub fn tell<W: Sink>(writer: &mut Writer<'_, W>, changes: &Wave, query: Query)
    requires { IsTimeline same_value standing changes.now }
    ensures { Adds writer.old writer.new (query_lines changes.now query) }
{
    match query {
        Query::Value(time) => value_reply(writer, changes.at(time)),
        Query::Wave => wave(writer, changes.changes()),
        Query::Next(time) => change_or_none(writer, changes.next_after(time)),
        Query::Prev(time) => change_or_none(writer, changes.last_before(time)),
        Query::Seek(time, value) => change_or_none(writer, changes.next_value(time, value)),
        Query::Window(from, to) => window(writer, changes, from, to),
        Query::Parts(from, to, parts) => window_parts(writer, changes, from, to, parts),
    }
}

fn value_reply<W: Sink>(writer: &mut Writer<'_, W>, value: Value)
    ensures { Adds writer.old writer.new (value_line value) }
{
    writer.text(&[value.symbol()]);
    writer.text(b"\n");
}

fn change_or_none<W: Sink>(writer: &mut Writer<'_, W>, found: Option<(u64, Value)>)
    ensures { Adds writer.old writer.new (change_or_none found) }
{
    match found {
        Some((time, value)) => change(writer, time, value),
        None => writer.text(b"none\n"),
    }
}
