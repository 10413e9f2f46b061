//! The gates of a design.

ghost use Rattle.std.specs.Prelude.{◌≡◌, ◌<◌, All, IfSome, length, map, slice_get};
ghost use Rattle.devices.specs.Outgoing.{Adds};
ghost use Rattle.design.specs.Keys.{connection_in, entry_in, netlist};
ghost use Rattle.design.specs.kept.Keys.{IsConnected, IsThere};
ghost use Rattle.listing.specs.Lines.{delay_words, gate_line, kind_words, off_word, pin_word, pin_words, wire_words};
ghost use Rattle.listing.specs.Listings.{gate_lines};

use design::{Design, Gate, Terminal};
use devices::{Sink, Writer};
use fourstate::{Delays, Value, delay};

/// Writes a line `G KIND R F OUT IN..` for each gate, in order; one with a turn-off delay Z has `F/Z` in place of `F`.
pub fn gates<W: Sink>(writer: &mut Writer<'_, W>, design: &Design)
    ensures { Adds writer.old writer.new (gate_lines (netlist design.now).gates) }
{
    for place in 0..design.gate_count() {
        gate_line(writer, design, design.gate_at(place));
    }
}

/// Writes the same of the gate at a place in the order of the gates.
pub fn gate<W: Sink>(writer: &mut Writer<'_, W>, design: &Design, place: usize)
    requires { place < length (netlist design.now).gates }
    ensures { IfSome (slice_get (netlist design.now).gates place) (λ g. Adds writer.old writer.new (gate_line g)) }
{
    gate_line(writer, design, design.gate_at(place));
}

fn gate_line<W: Sink>(writer: &mut Writer<'_, W>, design: &Design, gate: &Gate)
    requires { IsConnected design.now.nets gate.now }
    ensures { Adds writer.old writer.new (gate_line (entry_in design.now.nets gate.now)) }
{
    writer.text(gate.name().as_str().as_bytes());
    writer.text(b" ");
    kind_words(writer, design, gate);
    writer.text(b" ");
    wire_words(writer, design, gate);
    writer.text(b"\n");
}

fn kind_words<W: Sink>(writer: &mut Writer<'_, W>, design: &Design, gate: &Gate)
    ensures { Adds writer.old writer.new (kind_words (entry_in design.now.nets gate.now)) }
{
    writer.text(gate.kind().keyword().as_bytes());
    writer.text(b" ");
    delay_words(writer, gate.delays());
}

fn wire_words<W: Sink>(writer: &mut Writer<'_, W>, design: &Design, gate: &Gate)
    requires { IsConnected design.now.nets gate.now }
    ensures { Adds writer.old writer.new (wire_words (entry_in design.now.nets gate.now)) }
{
    writer.text(design.name_of(gate.output()).as_str().as_bytes());
    pin_words(writer, design, gate.inputs());
}

fn pin_words<W: Sink>(writer: &mut Writer<'_, W>, design: &Design, pins: &[Terminal])
    requires { All (IsThere design.now.nets) pins.now }
    ensures { Adds writer.old writer.new (pin_words (map (connection_in design.now.nets) pins.now)) }
{
    for pin in pins {
        writer.text(b" ");
        pin_word(writer, design, *pin);
    }
}

fn pin_word<W: Sink>(writer: &mut Writer<'_, W>, design: &Design, pin: Terminal)
    requires { IsThere design.now.nets pin }
    ensures { Adds writer.old writer.new (pin_word (connection_in design.now.nets pin)) }
{
    match pin {
        Terminal::Net(net) => writer.text(design.name_of(net).as_str().as_bytes()),
        Terminal::Constant(value) => {
            writer.text(b"1'b");
            writer.text(&[value.symbol()]);
        }
    }
}

fn delay_words<W: Sink>(writer: &mut Writer<'_, W>, delays: Delays)
    ensures { Adds writer.old writer.new (delay_words delays) }
{
    writer.number(u64::from(delay(&delays, Value::One)));
    writer.text(b" ");
    writer.number(u64::from(delay(&delays, Value::Zero)));
    off_word(writer, delays);
}

fn off_word<W: Sink>(writer: &mut Writer<'_, W>, delays: Delays)
    ensures { Adds writer.old writer.new (off_word delays.off) }
{
    if delays.has_off() {
        writer.text(b"/");
        writer.number(u64::from(delay(&delays, Value::HighZ)));
    }
}
