//! What the change of a net led to.

ghost use Rattle.std.specs.Prelude.{◌≡◌, ◌≤◌, ◌<◌, All, IfSome, IsSome, length, slice_get};
ghost use Rattle.std.specs.List.{flat_map};
ghost use Rattle.devices.specs.Outgoing.{Adds};
ghost use Rattle.gatestep.specs.Step.{advance};
ghost use Rattle.design.specs.Keys.{entry_in, name_of, netlist};
ghost use Rattle.design.specs.kept.Keys.{gate_by_key, net_by_key};
ghost use Rattle.listing.specs.Listings.{readers_of};
ghost use Rattle.scratch.specs.kept.Run.{IsRun};
ghost use Rattle.causes.specs.CauseLines.{reach_line, reach_lines, reader_lines};
ghost use Rattle.causes.specs.kept.KeyedLines.{lines_at, lines_at_keys};

use crate::change::{changes_at, value_at};
use crate::ending::end;
use crate::words::value_words;
use bench::Snapshot;
use design::{Design, Gate, GateKey, NetKey};
use devices::{Sink, Writer};
use waveform::Run;

/// Writes what the change of the net at a place in the order of the nets made change next, at a moment in time units: `none` where
/// it does not change there; else a line `G U OUT V` for each gate that reads it and turns from that moment on, at `U`, where the
/// net that it drives changes then, to `V`.
pub fn reach<W: Sink>(writer: &mut Writer<'_, W>, snapshot: &Snapshot, place: usize, t: u64)
    requires net { place < length snapshot.now.design.nets }
    requires within { t ≤ snapshot.now.design.horizon }
    ensures { IfSome (slice_get snapshot.now.design.nets place) (λ n. Adds writer.old writer.new (reach_lines snapshot.now.design n t)) }
{
    let (design, run) = snapshot.design_and_run();
    reach_net(writer, design, run, design.net_key_at(place), t);
}

fn reach_net<W: Sink>(writer: &mut Writer<'_, W>, design: &Design, run: &Run, net: NetKey, t: u64)
    requires run { IsRun advance design.now run.now }
    requires net { IsSome (net_by_key design.now net) }
    requires within { t ≤ (netlist design.now).horizon }
    ensures { IfSome (net_by_key design.now net) (λ n. Adds writer.old writer.new (reach_lines (netlist design.now) n t)) }
{
    if changes_at(design, run, net, t) {
        readers(writer, design, run, net, t);
    } else {
        writer.text(b"none\n");
    }
}

// The lines of the gates that read the net.
fn readers<W: Sink>(writer: &mut Writer<'_, W>, design: &Design, run: &Run, net: NetKey, t: u64)
    requires run { IsRun advance design.now run.now }
    requires net { IsSome (net_by_key design.now net) }
    requires within { t ≤ (netlist design.now).horizon }
    ensures { Adds writer.old writer.new (flat_map (reader_lines (netlist design.now) t) (readers_of (netlist design.now) (name_of design.now.nets net))) }
{
    design.lawful();
    design.places_are_keys();
    turn_lines(writer, design, run, design.fanout(net), t);
}

fn turn_lines<W: Sink>(
    writer: &mut Writer<'_, W>,
    design: &Design,
    run: &Run,
    gates: &[GateKey],
    t: u64,
)
    requires run { IsRun advance design.now run.now }
    requires gates { All (λ key. IsSome (gate_by_key design.now key)) gates.now }
    requires within { t ≤ (netlist design.now).horizon }
    ensures { Adds writer.old writer.new (lines_at_keys (reader_lines (netlist design.now) t) design.now.nets design.now.gates gates.now) }
{
    for gate in gates {
        turn_line(writer, design, run, *gate, t);
    }
}

// The line of a gate that turns from a moment on, if the net that it drives changes when it does.
fn turn_line<W: Sink>(writer: &mut Writer<'_, W>, design: &Design, run: &Run, gate: GateKey, t: u64)
    requires run { IsRun advance design.now run.now }
    requires gate { IsSome (gate_by_key design.now gate) }
    requires within { t ≤ (netlist design.now).horizon }
    ensures { Adds writer.old writer.new (lines_at (reader_lines (netlist design.now) t) design.now.nets design.now.gates gate) }
{
    design.names_are_keys();
    if let Some(time) = end(design, run, gate, t) {
        let gate = design.gate_of(gate);
        if changes_at(design, run, gate.output(), time) {
            reach_line(writer, design, run, gate, time);
        }
    }
}

// The line of a gate that turns at a moment.
fn reach_line<W: Sink>(writer: &mut Writer<'_, W>, design: &Design, run: &Run, gate: &Gate, t: u64)
    requires run { IsRun advance design.now run.now }
    requires output { IsSome (net_by_key design.now gate.now.output) }
    requires within { t ≤ (netlist design.now).horizon }
    ensures { IfSome (net_by_key design.now gate.now.output) (λ out. Adds writer.old writer.new (reach_line (netlist design.now) (entry_in design.now.nets gate.now) out t)) }
{
    let value = value_at(design, run, gate.output(), t);
    writer.text(gate.name().as_str().as_bytes());
    writer.text(b" ");
    writer.number(t);
    value_words(writer, design.net_of(gate.output()).name(), value);
    writer.text(b"\n");
}
