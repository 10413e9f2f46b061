//! The lines of moments and values.

ghost use Rattle.std.specs.Prelude.{◌≡◌, ◌<◌};
ghost use Rattle.devices.specs.Outgoing.{Adds};
ghost use Rattle.vcd.specs.Changes.{time_line, value_line};

use crate::codes::{CHARACTERS, character};
use design::MAX_NETS;
use devices::{Sink, Writer};
use fourstate::Value;

/// The line of the moment `t`.
pub(crate) fn time_line<W: Sink>(writer: &mut Writer<'_, W>, t: u64)
    ensures { Adds writer.old writer.new (time_line t) }
{
    writer.text(b"#");
    writer.number(t);
    writer.text(b"\n");
}

/// The line of a value of net `n`. Each code of a design's nets has at most three characters, so that a line goes out as one
/// piece.
pub(crate) fn value_line<W: Sink>(writer: &mut Writer<'_, W>, n: usize, value: Value)
    requires { n < MAX_NETS }
    ensures { Adds writer.old writer.new (value_line n value) }
{
    let symbol = value.symbol();
    let first = character(n);
    if n < CHARACTERS {
        writer.text(&[symbol, first, b'\n']);
        return;
    }
    let rest = n / CHARACTERS - 1;
    let second = character(rest);
    if rest < CHARACTERS {
        writer.text(&[symbol, first, second, b'\n']);
        return;
    }
    let third = character(rest / CHARACTERS - 1);
    writer.text(&[symbol, first, second, third, b'\n']);
}
