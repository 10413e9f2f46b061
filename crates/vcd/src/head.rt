//! The head of a dump.

ghost use Rattle.std.specs.Prelude.{◌≡◌, [], ◌++◌};
ghost use Rattle.devices.specs.Outgoing.{Adds};
ghost use Rattle.fourstate.specs.Keywords.{net_keyword};
ghost use Rattle.design.specs.Keys.{netlist};
ghost use Rattle.vcd.specs.Head.{head_lines, magnitude_text, timescale_line, unit_text, var_line, var_lines};
ghost use Rattle.vcd.specs.Scopes.{open_line, reference_of, scope_lines, scopes_of};

use crate::codes::code;
use crate::scopes::{CLOSE_LINE, change_scopes, close_scopes, open_scope, reference};
use design::{Design, Net};
use devices::{Sink, Writer};
use fourstate::{Magnitude, TimeUnit, Unit};

/// Writes all that stands before the first moment: who wrote the dump, its time unit, and the design's nets, each in its
/// scope, with its kind and its code.
pub fn head<W: Sink>(writer: &mut Writer<'_, W>, design: &Design)
    ensures { Adds writer.old writer.new (head_lines (netlist design.now)) }
{
    writer.text(b"$version gatebench $end\n");
    timescale(writer, design);
    open_top(writer, design);
    vars(writer, design);
    writer.text(CLOSE_LINE);
    writer.text(b"$enddefinitions $end\n");
}

fn timescale<W: Sink>(writer: &mut Writer<'_, W>, design: &Design)
    ensures { Adds writer.old writer.new (timescale_line (netlist design.now).unit) }
{
    time_unit(writer, design.unit());
}

fn time_unit<W: Sink>(writer: &mut Writer<'_, W>, time: TimeUnit)
    ensures { Adds writer.old writer.new (timescale_line time) }
{
    writer.text(b"$timescale ");
    magnitude(writer, time.magnitude);
    writer.text(b" ");
    unit(writer, time.unit);
    writer.text(b" $end\n");
}

fn magnitude<W: Sink>(writer: &mut Writer<'_, W>, magnitude: Magnitude)
    ensures { Adds writer.old writer.new (magnitude_text magnitude) }
{
    match magnitude {
        Magnitude::One => writer.text(b"1"),
        Magnitude::Ten => writer.text(b"10"),
        Magnitude::Hundred => writer.text(b"100"),
    }
}

fn unit<W: Sink>(writer: &mut Writer<'_, W>, unit: Unit)
    ensures { Adds writer.old writer.new (unit_text unit) }
{
    match unit {
        Unit::Second => writer.text(b"s"),
        Unit::Millisecond => writer.text(b"ms"),
        Unit::Microsecond => writer.text(b"us"),
        Unit::Nanosecond => writer.text(b"ns"),
        Unit::Picosecond => writer.text(b"ps"),
        Unit::Femtosecond => writer.text(b"fs"),
    }
}

fn open_top<W: Sink>(writer: &mut Writer<'_, W>, design: &Design)
    ensures { Adds writer.old writer.new (open_line (netlist design.now).top) }
{
    open_scope(writer, design.top().as_str().as_bytes());
}

fn vars<W: Sink>(writer: &mut Writer<'_, W>, design: &Design)
    ensures { Adds writer.old writer.new (var_lines 0 [] (netlist design.now).nets) }
{
    let mut before: &[u8] = b"";
    for n in 0..design.net_count() {
        let net = design.net_at(n);
        let name = net.name().as_str().as_bytes();
        net_lines(writer, before, n, net);
        before = name;
    }
    close_scopes(writer, before);
}

// The lines of net `n`, after a net of the name `before`.
fn net_lines<W: Sink>(writer: &mut Writer<'_, W>, before: &[u8], n: usize, net: &Net)
    ensures { Adds writer.old writer.new (scope_lines (scopes_of before.now) (scopes_of net.now.name) ++ var_line n net.now) }
{
    change_scopes(writer, before, net.name().as_str().as_bytes());
    var(writer, n, net);
}

fn var<W: Sink>(writer: &mut Writer<'_, W>, n: usize, net: &Net)
    ensures { Adds writer.old writer.new (var_line n net.now) }
{
    writer.text(b"$var ");
    kind(writer, net);
    writer.text(b" 1 ");
    code(writer, n);
    writer.text(b" ");
    name(writer, net);
    writer.text(b" $end\n");
}

fn kind<W: Sink>(writer: &mut Writer<'_, W>, net: &Net)
    ensures { Adds writer.old writer.new (net_keyword net.now.kind) }
{
    writer.text(net.kind().keyword().as_bytes());
}

fn name<W: Sink>(writer: &mut Writer<'_, W>, net: &Net)
    ensures { Adds writer.old writer.new (reference_of net.now.name) }
{
    reference(writer, net.name().as_str().as_bytes());
}
