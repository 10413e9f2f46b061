//! What the nets and the gates of a run do at a moment.

ghost use Rattle.std.specs.Prelude.{◌≡◌, ◌≤◌, IfSome, IsSome};
ghost use Rattle.fourstate.specs.Values.{same_value};
ghost use Rattle.gatestep.specs.Step.{advance};
ghost use Rattle.design.specs.Keys.{entry_in, netlist};
ghost use Rattle.design.specs.kept.Keys.{gate_by_key, net_by_key};
ghost use Rattle.scratch.specs.Run.{state_after, value, wave_of};
ghost use Rattle.scratch.specs.kept.Run.{IsRun, trace_of};
ghost use Rattle.causes.specs.Causes.{changes_at, driven};

use design::{Design, GateKey, NetKey};
use fourstate::Value;
use gatestep::Driver;
use waveform::laws::value_of_changes;
use waveform::{Run, Trace, Wave};

/// The value of a net at a moment of the run, in time units.
pub(crate) fn value_at(design: &Design, run: &Run, net: NetKey, t: u64) -> Value
    requires run { IsRun advance design.now run.now }
    requires net { IsSome (net_by_key design.now net) }
    requires within { t ≤ (netlist design.now).horizon }
    ensures { IfSome (net_by_key design.now net) (λ n. result ≡ value advance (netlist design.now) n t) }
{
    value_of_changes::<Value>();
    wave_of(design, run, net).at(t)
}

/// Whether a net changes at a moment of the run, in time units.
pub(crate) fn changes_at(design: &Design, run: &Run, net: NetKey, t: u64) -> bool
    requires run { IsRun advance design.now run.now }
    requires net { IsSome (net_by_key design.now net) }
    requires within { t ≤ (netlist design.now).horizon }
    ensures { IfSome (net_by_key design.now net) (λ n. result ≡ changes_at (netlist design.now) n t) }
{
    if t == 0 {
        return true;
    }
    let before = value_at(design, run, net, t - 1);
    !is_same(value_at(design, run, net, t), before)
}

/// What a gate drives at a moment of the run, in time units.
pub(crate) fn driven(design: &Design, run: &Run, gate: GateKey, t: u64) -> Value
    requires run { IsRun advance design.now run.now }
    requires gate { IsSome (gate_by_key design.now gate) }
    requires within { t ≤ (netlist design.now).horizon }
    ensures { IfSome (gate_by_key design.now gate)
        (λ g. result ≡ driven (netlist design.now) (entry_in design.now.nets g) t) }
{
    state_after(design, run, gate, t).current()
}

/// Whether two values are the same.
pub(crate) fn is_same(one: Value, other: Value) -> bool
    ensures { result ≡ same_value one other }
{
    one == other
}

/// The state of a gate's driver after a moment of the run, in time units.
pub(crate) fn state_after(design: &Design, run: &Run, gate: GateKey, t: u64) -> Driver
    requires run { IsRun advance design.now run.now }
    requires gate { IsSome (gate_by_key design.now gate) }
    requires within { t ≤ (netlist design.now).horizon }
    ensures { IfSome (gate_by_key design.now gate)
        (λ g. result ≡ state_after advance (netlist design.now) (entry_in design.now.nets g) t) }
{
    value_of_changes::<Driver>();
    design.gate_of(gate).lawful();
    trace_of(design, run, gate).at(t)
}

fn wave_of<'a>(design: &Design, run: &'a Run, net: NetKey) -> &'a Wave
    requires run { IsRun advance design.now run.now }
    requires net { IsSome (net_by_key design.now net) }
    ensures { IfSome (net_by_key design.now net) (λ n. result.now ≡ wave_of advance (netlist design.now) n) }
{
    match run.wave(net.number()) {
        Some(wave) => wave,
        None => unreachable!(),
    }
}

fn trace_of<'a>(design: &Design, run: &'a Run, gate: GateKey) -> &'a Trace
    requires run { IsRun advance design.now run.now }
    requires gate { IsSome (gate_by_key design.now gate) }
    ensures { IfSome (gate_by_key design.now gate)
        (λ g. result.now ≡ trace_of advance (netlist design.now) (entry_in design.now.nets g)) }
{
    match run.trace(gate.number()) {
        Some(trace) => trace,
        None => unreachable!(),
    }
}
