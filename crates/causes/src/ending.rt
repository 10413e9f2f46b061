//! When a gate turns from a moment on.

ghost use Rattle.std.specs.Prelude.{◌≡◌, ◌≤◌, ◌<◌, ◌&&◌, not, ℕ, IfSome, IsSome, None, Some};
ghost use Rattle.std.specs.Option.{option_to_list};
ghost use Rattle.fourstate.specs.declared.value.Value as values;
ghost use Rattle.fourstate.specs.Values.{same_value};
ghost use Rattle.gatestep.specs.Step.{advance, same_pending};
ghost use Rattle.design.specs.Keys.{entry_in, netlist};
ghost use Rattle.design.specs.kept.Keys.{gate_by_key};
ghost use Rattle.scratch.specs.Run.{state_after, state_before};
ghost use Rattle.scratch.specs.kept.Run.{IsRun};
ghost use Rattle.causes.specs.Causes.{brings, ends};
ghost use Rattle.causes.specs.kept.Effects.{takes_effect};

use crate::change::{driven, is_same, state_after};
use design::{Design, GateKey};
use fourstate::Value;
use waveform::Run;

/// The moment up to the horizon at which a gate turns from a moment on, if it turns by what its evaluation there brought.
pub(crate) fn end(design: &Design, run: &Run, gate: GateKey, t: u64) -> Option<u64>
    requires run { IsRun advance design.now run.now }
    requires gate { IsSome (gate_by_key design.now gate) }
    requires within { t ≤ (netlist design.now).horizon }
    ensures end { IfSome (gate_by_key design.now gate)
        (λ g. option_to_list result ≡ ends (netlist design.now) (entry_in design.now.nets g) t) }
    ensures within { IfSome result (λ u. u ≤ (netlist design.now).horizon) }
{
    let Some(event) = event(design, run, gate, t) else {
        return None;
    };
    if event.1 > design.horizon() {
        return None;
    }
    if takes_effect(design, run, gate, event) {
        Some(event.1)
    } else {
        None
    }
}

// Whether an event that the evaluation of a gate brought makes it turn: it drives the value at its moment, and did not before.
fn takes_effect(design: &Design, run: &Run, gate: GateKey, event: (Value, u64)) -> bool
    requires run { IsRun advance design.now run.now }
    requires gate { IsSome (gate_by_key design.now gate) }
    requires later { 0 < event.1 }
    requires within { event.1 ≤ (netlist design.now).horizon }
    ensures { IfSome (gate_by_key design.now gate)
        (λ g. result ≡ takes_effect (netlist design.now) (entry_in design.now.nets g) event) }
{
    let (value, t) = event;
    let before = driven(design, run, gate, t - 1);
    let now = driven(design, run, gate, t);
    has_turned(before, now, value)
}

// Whether what is driven has become this value.
fn has_turned(before: Value, now: Value, value: Value) -> bool
    ensures { result ≡ (same_value now value && not (same_value before value)) }
{
    is_same(now, value) && !is_same(before, value)
}

// The event that the evaluation of a gate at a moment brought, if it brought one.
fn event(design: &Design, run: &Run, gate: GateKey, t: u64) -> Option<(Value, u64)>
    requires run { IsRun advance design.now run.now }
    requires gate { IsSome (gate_by_key design.now gate) }
    requires within { t ≤ (netlist design.now).horizon }
    ensures event { IfSome (gate_by_key design.now gate)
        (λ g. (e : values.Value × ℕ) → brings (netlist design.now) (entry_in design.now.nets g) t e ≡ same_pending result (Some e)) }
    ensures later { IfSome result (λ e. t < e.1) }
{
    let before = pending_before(design, run, gate, t);
    let after = pending_after(design, run, gate, t);
    if is_same_event(after, before) {
        None
    } else {
        after
    }
}

// What is pending at a gate before a moment.
fn pending_before(design: &Design, run: &Run, gate: GateKey, t: u64) -> Option<(Value, u64)>
    requires run { IsRun advance design.now run.now }
    requires gate { IsSome (gate_by_key design.now gate) }
    requires within { t ≤ (netlist design.now).horizon }
    ensures { IfSome (gate_by_key design.now gate)
        (λ g. result ≡ (state_before advance (netlist design.now) t (entry_in design.now.nets g)).pending) }
{
    if t == 0 {
        return None;
    }
    state_after(design, run, gate, t - 1).pending()
}

// What is pending at a gate after a moment, all of it for later moments.
fn pending_after(design: &Design, run: &Run, gate: GateKey, t: u64) -> Option<(Value, u64)>
    requires run { IsRun advance design.now run.now }
    requires gate { IsSome (gate_by_key design.now gate) }
    requires within { t ≤ (netlist design.now).horizon }
    ensures pending { IfSome (gate_by_key design.now gate)
        (λ g. result ≡ (state_after advance (netlist design.now) (entry_in design.now.nets g) t).pending) }
    ensures later { IfSome result (λ e. t < e.1) }
{
    design.gate_of(gate).lawful();
    state_after(design, run, gate, t).pending()
}

// Whether the same event is pending, or none.
fn is_same_event(one: Option<(Value, u64)>, other: Option<(Value, u64)>) -> bool
    ensures { result ≡ same_pending one other }
{
    match (one, other) {
        (None, None) => true,
        (Some((value, t)), Some((next, u))) => value == next && t == u,
        _ => false,
    }
}
