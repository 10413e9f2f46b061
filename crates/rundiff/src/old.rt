//! Look-ups in the old run, by name. Most nets and gates have the same key in both designs, so that is tried first, and no
//! name is hashed.

ghost use Rattle.std.specs.Prelude.{◌≡◌, ℕ, suc, None, IfNone, IfSome, IsSome};
ghost use Rattle.std.specs.Option.{option_map};
ghost use Rattle.gatestep.specs.Step.{Evaluation, State};
ghost use Rattle.design.specs.Connections.{to_net};
ghost use Rattle.design.specs.Keys.{entry_in, netlist};
ghost use Rattle.design.specs.kept.Keys.{gate_by_key, net_by_key};
ghost use Rattle.design.specs.Netlist.{gate_named, net_named};
ghost use Rattle.waveform.specs.Changes.{wave_changes_below};
ghost use Rattle.waveform.specs.kept.Changes.{trace_below};
ghost use Rattle.scratch.specs.kept.Run.{IsRun};
ghost use Rattle.rundiff.specs.kept.Fronts.{named_state};
ghost use Rattle.rundiff.specs.kept.Kept.{read_at};

use crate::former::Former;
use design::{Design, GateKey, NetKey};
use fourstate::Value;
use gatestep::Driver;
use waveform::{Trace, Wave, laws};

/// The key of the net of this name in the old design; it is quick where that is `guess`.
pub fn old_net(old: &Design, guess: NetKey, name: &str) -> Option<NetKey>
    ensures there { IfSome result (λ key. IsSome (net_by_key old.now key)) }
    ensures net { IfSome result (λ key. net_by_key old.now key ≡ net_named (netlist old.now) name.now) }
    ensures absent { IfNone result (net_named (netlist old.now) name.now ≡ None) }
{
    old.names_are_keys();
    if old.net_place_of(guess).is_some() && old.name_of(guess).as_str() == name {
        return Some(guess);
    }
    old.net(name)
}

/// The key of the gate of this name in the old design; it is quick where that is `guess`.
pub fn old_gate(old: &Design, guess: GateKey, name: &str) -> Option<GateKey>
    ensures there { IfSome result (λ key. IsSome (gate_by_key old.now key)) }
    ensures gate { IfSome result (λ key. option_map (entry_in old.now.nets) (gate_by_key old.now key) ≡ gate_named (netlist old.now) name.now) }
    ensures absent { IfNone result (gate_named (netlist old.now) name.now ≡ None) }
{
    old.names_are_keys();
    if old.gate_place_of(guess).is_some() && old.gate_of(guess).name().as_str() == name {
        return Some(guess);
    }
    old.gate(name)
}

/// The wave of the net of this name in the run of the old design, and the blank one, where no net has the name. It is
/// quick where the net has the key `net`.
pub fn old_wave<'a>(former: &Former<'a>, net: NetKey, name: &str) -> &'a Wave
    ensures { (answer : Evaluation → ℕ → State) → IsRun answer former.now.old.now former.now.run.now →
        result.now ≡ wave_changes_below (read_at answer (netlist former.now.old.now) (to_net name.now)) (suc (netlist former.now.old.now).horizon) }
{
    laws::no_change::<Value>();
    let Some(key) = old_net(former.old, net, name) else {
        return &former.blanks.wave;
    };
    match former.run.wave(key.number()) {
        Some(wave) => wave,
        None => &former.blanks.wave,
    }
}

/// The trace of the gate of this name in the run of the old design, and the blank one, where no gate has the name. It is quick where the gate has the key `gate`.
pub fn old_trace<'a>(former: &Former<'a>, gate: GateKey, name: &str) -> &'a Trace
    ensures { (answer : Evaluation → ℕ → State) → IsRun answer former.now.old.now former.now.run.now →
        result.now ≡ trace_below (named_state answer (netlist former.now.old.now) name.now) (suc (netlist former.now.old.now).horizon) }
{
    laws::no_change::<Driver>();
    let Some(key) = old_gate(former.old, gate, name) else {
        return &former.blanks.trace;
    };
    match former.run.trace(key.number()) {
        Some(trace) => trace,
        None => &former.blanks.trace,
    }
}
