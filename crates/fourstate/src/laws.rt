//! Laws of the tables of gates, nets, delays and words: each function does nothing, and its contract is the law.

ghost use Rattle.std.specs.Prelude.{◌≡◌, ◌≤◌, [], ◌∷◌, if◌then◌else◌, IsTrue, map, Some};
ghost use Rattle.fourstate.specs.Delays.{delay_to};
ghost use Rattle.fourstate.specs.kept.Delays.{AreDelays, IsDelay};
ghost use Rattle.fourstate.specs.Gates.{gate_of};
ghost use Rattle.fourstate.specs.Keywords.{gate_keyword, gate_kind_of, net_keyword, net_kind_of};
ghost use Rattle.fourstate.specs.Nets.{net_of};
ghost use Rattle.fourstate.specs.kept.Nets.{passes_lone_driver};
ghost use Rattle.fourstate.specs.Values.{inverse, reading, same_value, symbol_of, value_of_symbol};
ghost use Rattle.fourstate.specs.kept.Values.{AreSameSet};
ghost use Rattle.fourstate.specs.declared.value.Value as values;

use crate::delays::Delays;
use crate::gate::GateKind;
use crate::limits::{MAX_DELAY, MAX_INPUTS, MAX_TIME};
use crate::net::NetKind;
use crate::value::Value;

/// Resolution depends neither on the order nor on the repetition of drivers: two lists of which the same values are
/// members give a net the same value.
#[tactic(auto, using(crate::proofs::Tables::same_resolution))]
pub fn resolution_reads_a_set(kind: NetKind, values: &[Value], others: &[Value])
    requires { AreSameSet values.now others.now }
    ensures { net_of kind values.now ≡ net_of kind others.now }
{}

/// One driver alone gives a net what it drives, where the net's kind passes it.
#[tactic(auto, using(crate::specs::kept::NetLaws::lone_driver_passes))]
pub fn lone_driver_passes(kind: NetKind, value: Value)
    requires { IsTrue (passes_lone_driver kind) }
    ensures { net_of kind (value ∷ []) ≡ value }
{}

/// A `tri0` has 0 and a `tri1` has 1 where a `tri` with the same drivers is z, and else what that has.
#[tactic(auto, using(crate::proofs::Tables::pulled_down, crate::proofs::Tables::pulled_up))]
pub fn pulls_give_way(values: &[Value])
    ensures down { net_of NetKind.Tri0 values.now ≡ (if same_value (net_of NetKind.Tri values.now) Value.HighZ then Value.Zero else net_of NetKind.Tri values.now) }
    ensures up { net_of NetKind.Tri1 values.now ≡ (if same_value (net_of NetKind.Tri values.now) Value.HighZ then Value.One else net_of NetKind.Tri values.now) }
{}

/// A gate reads z as x: it gives the same where each z among its inputs is an x.
#[tactic(auto, using(crate::proofs::Tables::read_twice))]
pub fn gate_reads_z_as_x(kind: GateKind, inputs: &[Value])
    ensures { gate_of kind inputs.now ≡ gate_of kind (map reading inputs.now) }
{}

/// `nand`, `nor`, `xnor` and `not` are `and`, `or`, `xor` and `buf` inverted.
pub fn inverting_gates(inputs: &[Value])
    ensures nand { gate_of GateKind.Nand inputs.now ≡ inverse (gate_of GateKind.And inputs.now) }
    ensures nor { gate_of GateKind.Nor inputs.now ≡ inverse (gate_of GateKind.Or inputs.now) }
    ensures xnor { gate_of GateKind.Xnor inputs.now ≡ inverse (gate_of GateKind.Xor inputs.now) }
    ensures not { gate_of GateKind.Not inputs.now ≡ inverse (gate_of GateKind.Buf inputs.now) }
{}

/// `notif1` and `notif0` are `bufif1` and `bufif0` of the data inverted.
#[tactic(auto, using(crate::proofs::Tables::inverted_data_one, crate::proofs::Tables::inverted_data_zero))]
pub fn inverting_three_state_gates(data: Value, control: Value)
    ensures active_one { gate_of GateKind.Notif1 («data» ∷ control ∷ []) ≡ gate_of GateKind.Bufif1 (inverse «data» ∷ control ∷ []) }
    ensures active_zero { gate_of GateKind.Notif0 («data» ∷ control ∷ []) ≡ gate_of GateKind.Bufif0 (inverse «data» ∷ control ∷ []) }
{}

/// The delay to each value is within the limits, and to x it is the least.
#[tactic(auto, using(crate::specs::kept::DelayLaws::delay_in_range, crate::proofs::Tables::least_delay))]
pub fn delays_in_range(delays: &Delays)
    ensures each { AreDelays delays.now }
    ensures to_each { (to : values.Value) → IsDelay (delay_to delays.now to) }
    ensures to_unknown { (to : values.Value) → delay_to delays.now Value.Unknown ≤ delay_to delays.now to }
{
    delays.lawful();
}

/// What a word of a kind writes is that kind.
#[tactic(auto, using(crate::proofs::Tables::gate_reads_back, crate::proofs::Tables::net_reads_back, crate::proofs::Tables::value_reads_back))]
pub fn words_read_back(gate: GateKind, net: NetKind, value: Value)
    ensures gate { gate_kind_of (gate_keyword gate) ≡ Some gate }
    ensures net { net_kind_of (net_keyword net) ≡ Some net }
    ensures value { value_of_symbol (symbol_of value) ≡ Some value }
{}

/// The limits of the profile have these numbers.
pub fn limits()
    ensures inputs { MAX_INPUTS ≡ 64 }
    ensures delay { MAX_DELAY ≡ 1000000 }
    ensures time { MAX_TIME ≡ 1099511627776 }
{}
