//! Edits of the gates of a design.

ghost use Rattle.std.specs.Prelude.{◌≡◌, ◌<◌, ◌++◌, ◌∷◌, [], ℕ, List, false, IsTrue, IsSome, IsSomeAnd, IfSome, IfOk, OnErr, OnOk, All, length, map};
ghost use Rattle.fourstate.specs.Gates.{takes_inputs};
ghost use Rattle.catalog.specs.Catalog.{record_at};
ghost use Rattle.catalog.specs.kept.Catalog.{key_named, keys_of, with_record, without_key};
ghost use Rattle.design.specs.declared.limits.TheConstants.{MAX_GATES};
ghost use Rattle.design.specs.Keys.{connection_in, entry_in, name_of, netlist};
ghost use Rattle.design.specs.kept.Keys.{IsConnected, IsDrivable, IsThere, drives_key, gate_by_key, reads_key, with_gate_at, with_keyed_gate, without_keyed_gate};
ghost use Rattle.design.specs.kept.Lists as Lists;
ghost use Rattle.design.specs.kept.Lists.{AreChanged, IsInOrder, list_of, with_key_in};
ghost use Rattle.design.specs.kept.Records.{IsInPlaceOf, gate_with_delays, gate_with_kind, gate_with_wiring};
ghost use Rattle.design.specs.Netlist.{GateEntry, has_gate, with_delays, with_gate, with_gate_changed, with_gate_kind, with_wiring, without_gate};

use crate::design::Design;
use crate::gate::{Gate, Inputs};
use crate::key::{GateKey, NetKey};
use crate::net::Net;
use crate::wires::Wires;
use catalog::Catalog;
use fourstate::laws::delays_in_range;
use fourstate::{Delays, GateKind};
use std::alloc::AllocError;

impl Design {
    /// Adds a gate, and gives its key.
    pub fn add_gate(self, gate: Gate) -> Result<(Design, GateKey), AllocError>
        requires absent { has_gate (netlist self) gate.name ≡ false }
        requires room { length (netlist self).gates < MAX_GATES }
        requires connected { IsConnected self.nets gate }
        ensures by_key { IfOk result (λ made. made.0 ≡ with_keyed_gate self gate made.1) }
        ensures by_name { IfOk result (λ made. netlist made.0 ≡ with_gate (netlist self) (entry_in self.nets gate)) }
    {
        let mut design = self;
        let key = design.push_gate(gate)?;
        Ok((design, key))
    }

    /// Adds a gate in place, and gives its key. Where memory runs out no net and no gate is left.
    pub fn push_gate(&mut self, gate: Gate) -> Result<GateKey, AllocError>
        requires absent { has_gate (netlist self.old) gate.name ≡ false }
        requires room { length (netlist self.old).gates < MAX_GATES }
        requires connected { IsConnected self.old.nets gate }
        ensures by_key { IfOk result (λ key. self.new ≡ with_keyed_gate self.old gate key) }
        ensures by_name { OnOk result (netlist self.new ≡ with_gate (netlist self.old) (entry_in self.old.nets gate)) }
        ensures err { OnErr result (self.new ≡ record self.old { nets = []; gates = [] }) }
    {
        gate.lawful();
        match put_last(&mut self.gates, &mut self.wires, gate) {
            Ok(key) => Ok(key),
            Err(error) => {
                clear(
                    &mut self.nets,
                    &mut self.gates,
                    &mut self.points,
                    &mut self.wires,
                );
                Err(error)
            }
        }
    }

    /// Takes a gate away. The others keep their keys.
    pub fn remove_gate(self, gate: GateKey) -> Result<Design, AllocError>
        requires { IsSome (gate_by_key self gate) }
        ensures by_key { IfOk result (λ made. made ≡ without_keyed_gate self gate) }
        ensures by_name { IfOk result (λ made. IfSome (gate_by_key self gate) (λ g. netlist made ≡ without_gate (netlist self) g.name)) }
    {
        let (gates, wires) = without_gate(self.gates, self.wires, gate)?;
        Ok(Design {
            gates,
            wires,
            ..self
        })
    }

    /// Gives a gate other delays.
    pub fn set_delays(self, gate: GateKey, delays: Delays) -> Result<Design, AllocError>
        requires { IsSome (gate_by_key self gate) }
        ensures by_key { IfOk result (λ made. IfSome (gate_by_key self gate) (λ g. made ≡ with_gate_at self gate (gate_with_delays g delays))) }
        ensures by_name { IfOk result (λ made. IfSome (gate_by_key self gate) (λ g. netlist made ≡ with_delays (netlist self) g.name delays)) }
    {
        let new = self.gate_of(gate).clone()?.with_delays(delays);
        self.put_gate(gate, new)
    }

    /// Gives a gate another kind, which takes as many inputs as the gate has.
    pub fn set_gate_kind(self, gate: GateKey, kind: GateKind) -> Result<Design, AllocError>
        requires { IsSomeAnd (gate_by_key self gate) (λ g. IsTrue (takes_inputs kind (length g.inputs))) }
        ensures by_key { IfOk result (λ made. IfSome (gate_by_key self gate) (λ g. made ≡ with_gate_at self gate (gate_with_kind g kind))) }
        ensures by_name { IfOk result (λ made. IfSome (gate_by_key self gate) (λ g. netlist made ≡ with_gate_kind (netlist self) g.name kind)) }
    {
        let new = self.gate_of(gate).clone()?.with_kind(kind);
        self.put_gate(gate, new)
    }

    /// Puts a gate in place of another one with its name and its connections.
    fn put_gate(self, gate: GateKey, new: Gate) -> Result<Design, AllocError>
        requires { IsSomeAnd (gate_by_key self gate) (λ old. IsInPlaceOf old new) }
        ensures by_key { IfOk result (λ made. made ≡ with_gate_at self gate new) }
        ensures by_name { IfOk result (λ made. IfSome (gate_by_key self gate) (λ old. (change : GateEntry → GateEntry) → entry_in self.nets new ≡ change (entry_in self.nets old) → netlist made ≡ with_gate_changed (netlist self) old.name change)) }
    {
        new.lawful();
        let gates = self.gates.replace(gate.number, new)?;
        Ok(Design { gates, ..self })
    }

    /// Puts a gate at other nets: it drives the net `output`, and reads `inputs`.
    pub fn rewire(self, gate: GateKey, output: NetKey, inputs: Inputs) -> Result<Design, AllocError>
        requires fit { IsSomeAnd (gate_by_key self gate) (λ g. IsTrue (takes_inputs g.kind (length inputs.items))) }
        requires output { IsDrivable self.nets output }
        requires inputs { All (IsThere self.nets) inputs.items }
        ensures by_key { IfOk result (λ made. IfSome (gate_by_key self gate) (λ g. made ≡ with_gate_at self gate (gate_with_wiring g output inputs.items))) }
        ensures by_name { IfOk result (λ made. IfSome (gate_by_key self gate) (λ g. netlist made ≡ with_wiring (netlist self) g.name (name_of self.nets output) (map (connection_in self.nets) inputs.items))) }
    {
        let (gates, wires) = with_wiring_at(self.gates, self.wires, gate, output, inputs)?;
        Ok(Design {
            gates,
            wires,
            ..self
        })
    }
}

/// Puts a gate last, and its key into the lists of the nets that it reads and drives; that key. Where memory runs out it is
/// not known what is left.
fn put_last(gates: &mut Catalog<Gate>, wires: &mut Wires, gate: Gate) -> Result<GateKey, AllocError>
    requires absent { key_named (λ g. g.name) gates.old gate.name ≡ None }
    requires readers { (k : ℕ) → IsInOrder (keys_of gates.old) (list_of wires.old.fanout k) }
    requires drivers { (k : ℕ) → IsInOrder (keys_of gates.old) (list_of wires.old.drivers k) }
    ensures entries { IfOk result (λ key. gates.new ≡ gates.old ++ (key, gate) ∷ []) }
    ensures fresh { IfOk result (λ key. record_at gates.old key ≡ None) }
    ensures readers { IfOk result (λ key. AreChanged (reads_key gate) (with_key_in (keys_of gates.new) key) wires.old.fanout wires.new.fanout) }
    ensures drivers { IfOk result (λ key. AreChanged (drives_key gate) (with_key_in (keys_of gates.new) key) wires.old.drivers wires.new.drivers) }
{
    let number = gates.push(gate)?;
    let key = GateKey { number };
    let Some(gate) = gates.get(number) else {
        unreachable!();
    };
    wires.add(gates, gate, key)?;
    Ok(key)
}

/// Takes all nets and gates away, and what is kept beside them.
pub(crate) fn clear(
    nets: &mut Catalog<Net>,
    gates: &mut Catalog<Gate>,
    points: &mut usize,
    wires: &mut Wires,
)
    ensures nets { nets.new ≡ [] }
    ensures gates { gates.new ≡ [] }
    ensures points { points.new ≡ 0 }
    ensures wires { wires.new ≡ record { fanout = []; drivers = [] } }
{
    nets.clear();
    gates.clear();
    *points = 0;
    *wires = Wires::new(wires.allocator());
}

/// The gates without one, and the lists without its key.
fn without_gate(
    gates: Catalog<Gate>,
    wires: Wires,
    key: GateKey,
) -> Result<(Catalog<Gate>, Wires), AllocError>
    requires { IsSome (record_at gates key) }
    ensures gates { IfOk result (λ made. made.0 ≡ without_key gates key) }
    ensures readers { IfOk result (λ made. IfSome (record_at gates key) (λ old. AreChanged (reads_key old) (λ list. Lists.without_key list key) wires.fanout made.1.fanout)) }
    ensures drivers { IfOk result (λ made. IfSome (record_at gates key) (λ old. AreChanged (drives_key old) (λ list. Lists.without_key list key) wires.drivers made.1.drivers)) }
{
    let Some(old) = gates.get(key.number) else {
        unreachable!();
    };
    let mut wires = wires;
    wires.remove(old, key)?;
    let gates = gates.remove(key.number)?;
    Ok((gates, wires))
}

/// The gates with one put at other nets, and the lists with its key there.
fn with_wiring_at(
    gates: Catalog<Gate>,
    wires: Wires,
    key: GateKey,
    output: NetKey,
    inputs: Inputs,
) -> Result<(Catalog<Gate>, Wires), AllocError>
    requires fit { IsSomeAnd (record_at gates key) (λ g. IsTrue (takes_inputs g.kind (length inputs.items))) }
    requires readers { (k : ℕ) → IsInOrder (keys_of gates) (list_of wires.fanout k) }
    requires drivers { (k : ℕ) → IsInOrder (keys_of gates) (list_of wires.drivers k) }
    ensures gates { IfOk result (λ made. IfSome (record_at gates key) (λ g. made.0 ≡ with_record gates key (gate_with_wiring g output inputs.items))) }
    ensures readers { IfOk result (λ made. IfSome (record_at gates key) (λ g. (less : List (List ℕ)) × AreChanged (reads_key g) (λ list. Lists.without_key list key) wires.fanout less × AreChanged (reads_key (gate_with_wiring g output inputs.items)) (with_key_in (keys_of gates) key) less made.1.fanout)) }
    ensures drivers { IfOk result (λ made. IfSome (record_at gates key) (λ g. (less : List (List ℕ)) × AreChanged (drives_key g) (λ list. Lists.without_key list key) wires.drivers less × AreChanged (drives_key (gate_with_wiring g output inputs.items)) (with_key_in (keys_of gates) key) less made.1.drivers)) }
{
    let Some(old) = gates.get(key.number) else {
        unreachable!();
    };
    let new = old.with_wiring(output, inputs)?;
    let mut wires = wires;
    wires.rewire(&gates, old, &new, key)?;
    let gates = gates.replace(key.number, new)?;
    Ok((gates, wires))
}
