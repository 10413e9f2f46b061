//! What made a net change.

ghost use Rattle.std.specs.Prelude.{◌≡◌, ◌≤◌, ◌<◌, ◌&&◌, All, IfSome, IsSome, length, slice_get};
ghost use Rattle.std.specs.List.{flat_map};
ghost use Rattle.devices.specs.Outgoing.{Adds};
ghost use Rattle.gatestep.specs.Step.{advance};
ghost use Rattle.design.specs.Keys.{name_of, netlist};
ghost use Rattle.design.specs.kept.Keys.{gate_by_key, net_by_key};
ghost use Rattle.design.specs.Netlist.{drivers_of, has_point};
ghost use Rattle.scratch.specs.kept.Run.{IsRun};
ghost use Rattle.causes.specs.CauseLines.{cause_lines, driver_lines, why_lines};
ghost use Rattle.causes.specs.kept.KeyedLines.{lines_at_keys};

use crate::change::changes_at;
use crate::turn::turn_line;
use bench::Snapshot;
use design::{Design, GateKey, NetKey};
use devices::{Sink, Writer};
use waveform::Run;

/// Writes what made the net at a place in the order of the nets change at a moment, in time units: `none` where it does not
/// change there, `stimulus` where a point of an input did it, `beginning` at 0 without one; else a line `G U IN V..` for each
/// driver that turns there, with the moment from which on it does, and with the nets that made it turn and their values then.
pub fn why<W: Sink>(writer: &mut Writer<'_, W>, snapshot: &Snapshot, place: usize, t: u64)
    requires net { place < length snapshot.now.design.nets }
    requires within { t ≤ snapshot.now.design.horizon }
    ensures { IfSome (slice_get snapshot.now.design.nets place) (λ n. Adds writer.old writer.new (why_lines snapshot.now.design n t)) }
{
    let (design, run) = snapshot.design_and_run();
    why_net(writer, design, run, design.net_key_at(place), t);
}

fn why_net<W: Sink>(writer: &mut Writer<'_, W>, design: &Design, run: &Run, net: NetKey, t: u64)
    requires run { IsRun advance design.now run.now }
    requires net { IsSome (net_by_key design.now net) }
    requires within { t ≤ (netlist design.now).horizon }
    ensures { IfSome (net_by_key design.now net) (λ n. Adds writer.old writer.new (why_lines (netlist design.now) n t)) }
{
    if changes_at(design, run, net, t) {
        cause_lines(writer, design, run, net, t);
    } else {
        writer.text(b"none\n");
    }
}

// What made the net change at a moment at which it does.
fn cause_lines<W: Sink>(writer: &mut Writer<'_, W>, design: &Design, run: &Run, net: NetKey, t: u64)
    requires run { IsRun advance design.now run.now }
    requires net { IsSome (net_by_key design.now net) }
    requires within { t ≤ (netlist design.now).horizon }
    ensures { IfSome (net_by_key design.now net) (λ n. Adds writer.old writer.new (cause_lines (netlist design.now) n t)) }
{
    if has_point(design, net, t) {
        writer.text(b"stimulus\n");
    } else if t == 0 {
        writer.text(b"beginning\n");
    } else {
        drivers(writer, design, run, net, t);
    }
}

// Whether the net is an input with a point at the moment.
fn has_point(design: &Design, net: NetKey, t: u64) -> bool
    requires { IsSome (net_by_key design.now net) }
    ensures { IfSome (net_by_key design.now net) (λ n. result ≡ (n.is_input && has_point n.points t)) }
{
    let net = design.net_of(net);
    net.is_input() && net.has_point(t)
}

// The lines of the gates that drive the net.
fn drivers<W: Sink>(writer: &mut Writer<'_, W>, design: &Design, run: &Run, net: NetKey, t: u64)
    requires run { IsRun advance design.now run.now }
    requires net { IsSome (net_by_key design.now net) }
    requires within { t ≤ (netlist design.now).horizon }
    ensures { Adds writer.old writer.new (flat_map (driver_lines (netlist design.now) t) (drivers_of (netlist design.now) (name_of design.now.nets net))) }
{
    design.lawful();
    design.names_are_keys();
    turn_lines(writer, design, run, design.drivers(net), t);
}

fn turn_lines<W: Sink>(
    writer: &mut Writer<'_, W>,
    design: &Design,
    run: &Run,
    gates: &[GateKey],
    t: u64,
)
    requires run { IsRun advance design.now run.now }
    requires gates { All (λ key. IsSome (gate_by_key design.now key)) gates.now }
    requires within { t ≤ (netlist design.now).horizon }
    ensures { Adds writer.old writer.new (lines_at_keys (driver_lines (netlist design.now) t) design.now.nets design.now.gates gates.now) }
{
    for gate in gates {
        turn_line(writer, design, run, *gate, t);
    }
}
