//! Words of a line.

ghost use Rattle.std.specs.Prelude.{◌≡◌};
ghost use Rattle.devices.specs.Outgoing.{Adds};
ghost use Rattle.causes.specs.CauseLines.{value_words};

use design::Name;
use devices::{Sink, Writer};
use fourstate::Value;

/// Writes the name of a net and a value, each behind a blank.
pub(crate) fn value_words<W: Sink>(writer: &mut Writer<'_, W>, name: &Name, value: Value)
    ensures { Adds writer.old writer.new (value_words name.now value) }
{
    writer.text(b" ");
    writer.text(name.as_str().as_bytes());
    writer.text(b" ");
    writer.text(&[value.symbol()]);
}
