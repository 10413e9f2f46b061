//! Lines that show one thing.

ghost use Rattle.std.specs.Prelude.{◌≡◌};
ghost use Rattle.devices.specs.Outgoing.{Adds};
ghost use Rattle.listing.specs.Lines.{change_line, count_word, name_line, net_line, part_line};

use design::{Name, Net};
use devices::{Sink, Writer};
use fourstate::Value;

/// Writes a moment, in time units, and the value from then on.
pub fn change<W: Sink>(writer: &mut Writer<'_, W>, time: u64, value: Value)
    ensures { Adds writer.old writer.new (change_line (time, value)) }
{
    writer.number(time);
    writer.text(b" ");
    writer.text(&[value.symbol()]);
    writer.text(b"\n");
}

/// Writes the moment of the first change of a part of a wave, the values at the part's beginning and end, and whether it has
/// more changes.
pub(crate) fn part_line<W: Sink>(
    writer: &mut Writer<'_, W>,
    time: u64,
    first: Value,
    last: Value,
    has_more: bool,
)
    ensures { Adds writer.old writer.new (part_line time first last has_more) }
{
    writer.number(time);
    writer.text(b" ");
    writer.text(&[first.symbol()]);
    writer.text(b" ");
    writer.text(&[last.symbol()]);
    writer.text(b" ");
    writer.text(count_word(has_more).as_bytes());
    writer.text(b"\n");
}

fn count_word(has_more: bool) -> &'static str
    ensures { result.now ≡ count_word has_more }
{
    if has_more { "more" } else { "one" }
}

/// Writes a name by itself.
pub(crate) fn name_line<W: Sink>(writer: &mut Writer<'_, W>, name: &Name)
    ensures { Adds writer.old writer.new (name_line name.now) }
{
    writer.text(name.as_str().as_bytes());
    writer.text(b"\n");
}

/// Writes the name of a net and its kind.
pub(crate) fn net_line<W: Sink>(writer: &mut Writer<'_, W>, net: &Net)
    ensures { Adds writer.old writer.new (net_line net.now) }
{
    writer.text(net.name().as_str().as_bytes());
    writer.text(b" ");
    writer.text(net.kind().keyword().as_bytes());
    writer.text(b"\n");
}
