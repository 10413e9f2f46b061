//! Gates that turn.

ghost use Rattle.std.specs.Prelude.{◌≡◌, ◌≤◌, ◌-◌, All, IfSome, IsSome, length, map};
ghost use Rattle.std.specs.List.{flat_map};
ghost use Rattle.std.specs.Option.{option_to_list};
ghost use Rattle.devices.specs.Outgoing.{Adds};
ghost use Rattle.fourstate.specs.Delays.{delay_to};
ghost use Rattle.gatestep.specs.Step.{advance};
ghost use Rattle.design.specs.Keys.{connection_in, entry_in, netlist};
ghost use Rattle.design.specs.kept.Keys.{IsConnected, IsThere, gate_by_key, is_among, net_by_key};
ghost use Rattle.scratch.specs.kept.Run.{IsRun};
ghost use Rattle.causes.specs.CauseLines.{driver_lines, net_words, turn_line};
ghost use Rattle.causes.specs.Causes.{changed_among, starts};
ghost use Rattle.causes.specs.kept.KeyedLines.{changed_words, input_words, lines_at};

use crate::change::{changes_at, driven, is_same, value_at};
use crate::words::value_words;
use design::{Design, Gate, GateKey, NetKey, Terminal};
use devices::{Sink, Writer};
use fourstate::{Value, delay};
use waveform::Run;

/// Writes a line `G U IN V..` for a gate that turns at a moment: since when, and the nets that made it turn. It writes nothing
/// for one that does not turn there.
pub(crate) fn turn_line<W: Sink>(
    writer: &mut Writer<'_, W>,
    design: &Design,
    run: &Run,
    gate: GateKey,
    t: u64,
)
    requires run { IsRun advance design.now run.now }
    requires gate { IsSome (gate_by_key design.now gate) }
    requires within { t ≤ (netlist design.now).horizon }
    ensures { Adds writer.old writer.new (lines_at (driver_lines (netlist design.now) t) design.now.nets design.now.gates gate) }
{
    if let Some(from) = start(design, run, gate, t) {
        gate_words(writer, design, run, design.gate_of(gate), from);
    }
}

// The line of a gate that turns from a moment on.
fn gate_words<W: Sink>(
    writer: &mut Writer<'_, W>,
    design: &Design,
    run: &Run,
    gate: &Gate,
    from: u64,
)
    requires run { IsRun advance design.now run.now }
    requires connected { IsConnected design.now.nets gate.now }
    requires within { from ≤ (netlist design.now).horizon }
    ensures { Adds writer.old writer.new (turn_line (netlist design.now) (entry_in design.now.nets gate.now) from) }
{
    writer.text(gate.name().as_str().as_bytes());
    writer.text(b" ");
    writer.number(from);
    changed_inputs(writer, design, run, gate.inputs(), from);
    writer.text(b"\n");
}

// The moment from which on a gate turns at a moment, if it turns there. The event for what it drives then was brought by the
// evaluation that lies the delay to that value before.
fn start(design: &Design, run: &Run, gate: GateKey, t: u64) -> Option<u64>
    requires run { IsRun advance design.now run.now }
    requires gate { IsSome (gate_by_key design.now gate) }
    requires within { t ≤ (netlist design.now).horizon }
    ensures start { IfSome (gate_by_key design.now gate)
        (λ g. option_to_list result ≡ starts (netlist design.now) (entry_in design.now.nets g) t) }
    ensures within { IfSome result (λ u. u ≤ t) }
{
    if t == 0 {
        return None;
    }
    let before = driven(design, run, gate, t - 1);
    let value = driven(design, run, gate, t);
    if is_same(value, before) {
        return None;
    }
    let gate = design.gate_of(gate);
    gate.lawful();
    Some(delay_before(gate, value, t))
}

// The moment that lies the delay of a gate to a value before a moment.
fn delay_before(gate: &Gate, value: Value, t: u64) -> u64
    requires { delay_to gate.now.delays value ≤ t }
    ensures { result ≡ t - delay_to gate.now.delays value }
{
    t - u64::from(delay(&gate.delays(), value))
}

// Writes each net among these inputs that changes at a moment, once, with its value then.
fn changed_inputs<W: Sink>(
    writer: &mut Writer<'_, W>,
    design: &Design,
    run: &Run,
    inputs: &[Terminal],
    t: u64,
)
    requires run { IsRun advance design.now run.now }
    requires there { All (IsThere design.now.nets) inputs.now }
    requires within { t ≤ (netlist design.now).horizon }
    ensures { Adds writer.old writer.new (flat_map (net_words (netlist design.now) t)
        (changed_among (netlist design.now) t (map (connection_in design.now.nets) inputs.now))) }
{
    design.names_are_keys();
    design.places_are_keys();
    for place in 0..inputs.len() {
        changed_input(writer, design, run, &inputs[..place], inputs[place], t);
    }
}

// Writes the net of an input, if none of the inputs before it reads it and it changes at a moment.
fn changed_input<W: Sink>(
    writer: &mut Writer<'_, W>,
    design: &Design,
    run: &Run,
    earlier: &[Terminal],
    input: Terminal,
    t: u64,
)
    requires run { IsRun advance design.now run.now }
    requires there { IsThere design.now.nets input }
    requires within { t ≤ (netlist design.now).horizon }
    ensures { Adds writer.old writer.new (input_words design.now t earlier.now input) }
{
    if let Terminal::Net(net) = input {
        if !is_among(earlier, net) {
            changed_net(writer, design, run, net, t);
        }
    }
}

// Whether one of these inputs reads the net of this key.
fn is_among(inputs: &[Terminal], net: NetKey) -> bool
    ensures { result ≡ is_among inputs.now net }
{
    inputs.iter().any(|input| match input {
        Terminal::Net(read) => *read == net,
        Terminal::Constant(_) => false,
    })
}

// Writes a net that changes at a moment, with its value then.
fn changed_net<W: Sink>(writer: &mut Writer<'_, W>, design: &Design, run: &Run, net: NetKey, t: u64)
    requires run { IsRun advance design.now run.now }
    requires net { IsSome (net_by_key design.now net) }
    requires within { t ≤ (netlist design.now).horizon }
    ensures { Adds writer.old writer.new (changed_words design.now t net) }
{
    if changes_at(design, run, net, t) {
        let value = value_at(design, run, net, t);
        value_words(writer, design.net_of(net).name(), value);
    }
}
