//! Look-ups in a design by name and by key.

ghost use Rattle.std.specs.Prelude.{◌≡◌, ◌<◌, All, length, option_map, slice_get, IsSome, IfSome, IfNone, is_some};
ghost use Rattle.std.specs.List.{position_from};
ghost use Rattle.catalog.specs.Catalog.{records_of};
ghost use Rattle.catalog.specs.kept.Catalog.{place_of};
ghost use Rattle.design.specs.Keys.{entry_in, name_of, netlist};
ghost use Rattle.design.specs.kept.Keys.{IsConnected, driver_keys, gate_by_key, gate_key, net_by_key, net_key, reader_keys};
ghost use Rattle.design.specs.Names.{same_name};
ghost use Rattle.design.specs.Netlist.{gate_named, has_gate, has_net, has_point, is_used, net_named};

use crate::by_net::list_at;
use crate::design::Design;
use crate::gate::Gate;
use crate::key::{GateKey, NetKey};
use crate::name::Name;
use crate::net::Net;

impl Design {
    /// The place of the net of this name in the order of the nets.
    pub fn net_place(&self, name: &str) -> Option<usize>
        ensures place { result ≡ position_from (λ n. same_name n.name name.now) 0 (netlist self.now).nets }
        ensures there { is_some result ≡ has_net (netlist self.now) name.now }
        ensures within { IfSome result (λ place. place < length (netlist self.now).nets) }
        ensures net { IfSome result (λ place. slice_get (netlist self.now).nets place ≡ net_named (netlist self.now) name.now) }
        ensures absent { IfNone result (net_named (netlist self.now) name.now ≡ None) }
    {
        match self.nets.key(name) {
            Some(key) => self.nets.place(key),
            None => None,
        }
    }

    /// The place of the gate of this name in the order of the gates.
    pub fn gate_place(&self, name: &str) -> Option<usize>
        ensures place { result ≡ position_from (λ g. same_name g.name name.now) 0 (netlist self.now).gates }
        ensures there { is_some result ≡ has_gate (netlist self.now) name.now }
        ensures within { IfSome result (λ place. place < length (netlist self.now).gates) }
        ensures gate { IfSome result (λ place. slice_get (netlist self.now).gates place ≡ gate_named (netlist self.now) name.now) }
        ensures absent { IfNone result (gate_named (netlist self.now) name.now ≡ None) }
    {
        match self.gates.key(name) {
            Some(key) => self.gates.place(key),
            None => None,
        }
    }

    /// The key of the net of this name.
    pub fn net(&self, name: &str) -> Option<NetKey>
        ensures key { result ≡ net_key self.now name.now }
        ensures there { is_some result ≡ has_net (netlist self.now) name.now }
        ensures net { IfSome result (λ key. net_by_key self.now key ≡ net_named (netlist self.now) name.now) }
        ensures name { IfSome result (λ key. name_of self.now.nets key ≡ name.now) }
        ensures absent { IfNone result (net_named (netlist self.now) name.now ≡ None) }
    {
        match self.nets.key(name) {
            Some(number) => Some(NetKey { number }),
            None => None,
        }
    }

    /// The key of the gate of this name.
    pub fn gate(&self, name: &str) -> Option<GateKey>
        ensures key { result ≡ gate_key self.now name.now }
        ensures there { is_some result ≡ has_gate (netlist self.now) name.now }
        ensures gate { IfSome result (λ key. option_map (entry_in self.now.nets) (gate_by_key self.now key) ≡ gate_named (netlist self.now) name.now) }
        ensures absent { IfNone result (gate_named (netlist self.now) name.now ≡ None) }
    {
        match self.gates.key(name) {
            Some(number) => Some(GateKey { number }),
            None => None,
        }
    }

    /// The place of a net in the order of the nets; none where no net of the design has this key. It is found in one step,
    /// and by a search among the gaps that removals left.
    pub fn net_place_of(&self, net: NetKey) -> Option<usize>
        ensures place { result ≡ place_of self.now.nets net }
        ensures there { is_some result ≡ is_some (net_by_key self.now net) }
        ensures within { IfSome result (λ place. place < length (netlist self.now).nets) }
        ensures net { IfSome result (λ place. slice_get (netlist self.now).nets place ≡ net_by_key self.now net) }
    {
        self.nets.place(net.number)
    }

    /// The place of a gate in the order of the gates; none where no gate of the design has this key. It is found in one
    /// step, and by a search among the gaps that removals left.
    pub fn gate_place_of(&self, gate: GateKey) -> Option<usize>
        ensures place { result ≡ place_of self.now.gates gate }
        ensures there { is_some result ≡ is_some (gate_by_key self.now gate) }
        ensures within { IfSome result (λ place. place < length (netlist self.now).gates) }
        ensures gate { IfSome result (λ place. slice_get (records_of self.now.gates) place ≡ gate_by_key self.now gate) }
    {
        self.gates.place(gate.number)
    }

    /// The name of the net that has a key.
    pub fn name_of(&self, net: NetKey) -> &Name
        requires { IsSome (net_by_key self.now net) }
        ensures { result.now ≡ name_of self.now.nets net }
    {
        self.net_of(net).name()
    }

    /// The net that has a key.
    pub fn net_of(&self, net: NetKey) -> &Net
        requires { IsSome (net_by_key self.now net) }
        ensures { net_by_key self.now net ≡ Some result.now }
    {
        match self.nets.get(net.number) {
            Some(net) => net,
            None => unreachable!(),
        }
    }

    /// The gate that has a key.
    pub fn gate_of(&self, gate: GateKey) -> &Gate
        requires { IsSome (gate_by_key self.now gate) }
        ensures gate { gate_by_key self.now gate ≡ Some result.now }
        ensures connected { IsConnected self.now.nets result.now }
    {
        match self.gates.get(gate.number) {
            Some(gate) => gate,
            None => unreachable!(),
        }
    }

    /// The keys of the gates that read a net, each once, in the order of the gates.
    pub fn fanout(&self, net: NetKey) -> &[GateKey]
        ensures readers { result.now ≡ reader_keys self.now net }
        ensures gates { All (λ key. IsSome (gate_by_key self.now key)) result.now }
    {
        list_at(&self.wires.fanout, net)
    }

    /// The keys of the gates that drive a net, in the order of the gates.
    pub fn drivers(&self, net: NetKey) -> &[GateKey]
        ensures drivers { result.now ≡ driver_keys self.now net }
        ensures gates { All (λ key. IsSome (gate_by_key self.now key)) result.now }
    {
        list_at(&self.wires.drivers, net)
    }

    /// Whether a gate reads or drives a net.
    pub fn is_used(&self, net: NetKey) -> bool
        requires { IsSome (net_by_key self.now net) }
        ensures { IfSome (net_by_key self.now net) (λ n. result ≡ is_used (netlist self.now) n.name) }
    {
        if !list_at(&self.wires.fanout, net).is_empty() {
            return true;
        }
        !list_at(&self.wires.drivers, net).is_empty()
    }

    /// Whether a net has a stimulus point at the moment `t`.
    pub fn has_point(&self, net: NetKey, t: u64) -> bool
        requires { IsSome (net_by_key self.now net) }
        ensures { IfSome (net_by_key self.now net) (λ n. result ≡ has_point n.points t) }
    {
        self.net_of(net).has_point(t)
    }

    /// Whether a net has this name.
    pub fn has_net(&self, name: &str) -> bool
        ensures { result ≡ has_net (netlist self.now) name.now }
    {
        self.nets.key(name).is_some()
    }

    /// Whether a gate has this name.
    pub fn has_gate(&self, name: &str) -> bool
        ensures { result ≡ has_gate (netlist self.now) name.now }
    {
        self.gates.key(name).is_some()
    }
}
