//! Designs: what is read of them.

ghost use Rattle.std.specs.Prelude.{◌≡◌, ◌≤◌, ◌<◌, ℕ, IsSome, length, map, slice_get, IfOk};
ghost use Rattle.std.specs.List.{filter, position_from};
ghost use Rattle.fourstate.specs.declared.limits.TheConstants.{MAX_TIME};
ghost use Rattle.catalog.specs.Catalog.{records_of};
ghost use Rattle.catalog.specs.kept.Catalog.{keys_of, place_of};
ghost use Rattle.design.specs.Keys.{KeyedGate, entry_in, name_of, netlist};
ghost use Rattle.design.specs.kept.Keys.{AreKeys, IsConnected, driver_keys, drives_key, empty_design, gate_by_key, net_by_key};
ghost use Rattle.design.specs.kept.Lawful.{IsDesign};
ghost use Rattle.design.specs.Names.{same_name};
ghost use Rattle.design.specs.kept.Places.{driver_places};
ghost use Rattle.design.specs.Netlist.{drivers_of, gate_named, net_named, point_total};
ghost use Rattle.design.specs.kept.Netlist.{empty_netlist};

use crate::gate::Gate;
use crate::key::{GateKey, NetKey};
use crate::name::Name;
use crate::net::Net;
use crate::wires::Wires;
use catalog::{Catalog, NameHasher};
use fourstate::TimeUnit;
use std::alloc::{AllocError, Global};
use std::marker::Model;

/// A design: nets and gates, each in the order in which it was added and under a name that no other has, the stimulus
/// of the inputs, and the horizon, the last moment of a run. The type keeps that each gate drives and reads nets that
/// are there, and drives no input. A copy shares what neither it nor the original changes.
#[derive(Drop)]
pub struct Design {
    pub(crate) top: Name,
    pub(crate) unit: TimeUnit,
    pub(crate) horizon: u64,
    pub(crate) nets: Catalog<Net>,
    pub(crate) gates: Catalog<Gate>,
    pub(crate) points: usize,
    pub(crate) wires: Wires,
}

impl Model for Design {
    ghost use Rattle.design.specs.Keys.{Keyed};

    ghost Value = { Keyed };

    ghost use Rattle.design.specs.kept.Shown.{IsWhole, design_of};

    ghost view = { design_of };

    ghost invariant = { IsWhole };
}

impl Design {
    /// A design with no nets and no gates, and with the horizon 0.
    #[tactic(auto, using(crate::proofs::DesignLemmas::empty_is_kept), unfolding(crate::specs::Keys::netlist))]
    pub fn empty(alloc: Global, hasher: NameHasher, top: Name, unit: TimeUnit) -> Design
        ensures by_key { result ≡ empty_design top unit }
        ensures by_name { netlist result ≡ empty_netlist top unit }
    {
        top.lawful();
        Design {
            top,
            unit,
            horizon: 0,
            nets: Catalog::new(alloc, hasher),
            gates: Catalog::new(alloc, hasher),
            points: 0,
            wires: Wires::new(alloc),
        }
    }

    /// The same design, once more.
    pub fn try_clone(&self) -> Result<Design, AllocError>
        ensures { IfOk result (λ design. design ≡ self.now) }
    {
        let top = self.top.clone()?;
        let wires = self.wires.clone()?;
        let nets = self.nets.try_clone()?;
        let gates = self.gates.try_clone()?;
        Ok(Design {
            top,
            unit: self.unit,
            horizon: self.horizon,
            nets,
            gates,
            points: self.points,
            wires,
        })
    }

    /// The same design, in which the look-ups after many removals are as fast as in a new one.
    pub fn close_up(self) -> Result<Design, AllocError>
        ensures { IfOk result (λ design. design ≡ self) }
    {
        let nets = self.nets.close_up()?;
        let gates = self.gates.close_up()?;
        Ok(Design {
            nets,
            gates,
            ..self
        })
    }

    /// The design's name.
    #[tactic(auto, unfolding(crate::specs::Keys::netlist))]
    pub fn top(&self) -> &Name
        ensures { result.now ≡ (netlist self.now).top }
    {
        &self.top
    }

    /// How long one unit of the design's times is.
    #[tactic(auto, unfolding(crate::specs::Keys::netlist))]
    pub fn unit(&self) -> TimeUnit
        ensures { result ≡ (netlist self.now).unit }
    {
        self.unit
    }

    /// The last moment of a run, in time units.
    #[tactic(auto, unfolding(crate::specs::Keys::netlist))]
    pub fn horizon(&self) -> u64
        ensures horizon { result ≡ (netlist self.now).horizon }
        ensures within { result ≤ MAX_TIME }
    {
        self.horizon
    }

    /// How many nets there are.
    pub fn net_count(&self) -> usize
        ensures { result ≡ length (netlist self.now).nets }
    {
        self.nets.len()
    }

    /// How many gates there are.
    pub fn gate_count(&self) -> usize
        ensures { result ≡ length (netlist self.now).gates }
    {
        self.gates.len()
    }

    /// How many stimulus points there are, over all nets.
    #[tactic(auto, unfolding(crate::specs::Keys::netlist))]
    pub fn point_count(&self) -> usize
        ensures { result ≡ point_total (netlist self.now).nets }
    {
        self.points
    }

    /// The net at a place in the order of the nets.
    pub fn net_at(&self, place: usize) -> &Net
        requires { place < length (netlist self.now).nets }
        ensures { slice_get (netlist self.now).nets place ≡ Some result.now }
    {
        self.nets.record_at_place(place)
    }

    /// The gate at a place in the order of the gates.
    pub fn gate_at(&self, place: usize) -> &Gate
        requires { place < length (netlist self.now).gates }
        ensures gate { slice_get (records_of self.now.gates) place ≡ Some result.now }
        ensures named { slice_get (netlist self.now).gates place ≡ Some (entry_in self.now.nets result.now) }
        ensures connected { IsConnected self.now.nets result.now }
    {
        self.gates.record_at_place(place)
    }

    /// The key of the net at a place in the order of the nets.
    pub fn net_key_at(&self, place: usize) -> NetKey
        requires { place < length (netlist self.now).nets }
        ensures key { slice_get (keys_of self.now.nets) place ≡ Some result }
        ensures net { net_by_key self.now result ≡ slice_get (netlist self.now).nets place }
    {
        let number = self.nets.key_at(place);
        NetKey { number }
    }

    /// The key of the gate at a place in the order of the gates.
    pub fn gate_key_at(&self, place: usize) -> GateKey
        requires { place < length (netlist self.now).gates }
        ensures key { slice_get (keys_of self.now.gates) place ≡ Some result }
        ensures gate { gate_by_key self.now result ≡ slice_get (records_of self.now.gates) place }
    {
        let number = self.gates.key_at(place);
        GateKey { number }
    }

    /// The law of every design and of its keys; nothing runs.
    pub fn lawful(&self)
        ensures design { IsDesign (netlist self.now) }
        ensures keys { AreKeys self.now }
    {
        let _nets = &self.nets;
    }

    /// The law of places: those of a key are those of its name; nothing runs.
    pub fn places_are_keys(&self)
        ensures nets { (key : ℕ) → IsSome (net_by_key self.now key) → position_from (λ n. same_name n.name (name_of self.now.nets key)) 0 (netlist self.now).nets ≡ place_of self.now.nets key }
        ensures drivers { (key : ℕ) → IsSome (net_by_key self.now key) → map (λ gate. place_of self.now.gates gate) (driver_keys self.now key) ≡ map (λ place. Some place) (driver_places (netlist self.now).gates (name_of self.now.nets key)) }
    {
        let _nets = &self.nets;
    }

    /// The law of keys and names: a key's name finds what the key finds, and the drivers of a net are those of its key;
    /// nothing runs.
    pub fn names_are_keys(&self)
        ensures gates { (key : ℕ) (gate : KeyedGate) → gate_by_key self.now key ≡ Some gate → gate_named (netlist self.now) gate.name ≡ Some (entry_in self.now.nets gate) }
        ensures nets { (key : ℕ) → net_named (netlist self.now) (name_of self.now.nets key) ≡ net_by_key self.now key }
        ensures drivers { (key : ℕ) → IsSome (net_by_key self.now key) → drivers_of (netlist self.now) (name_of self.now.nets key) ≡ map (entry_in self.now.nets) (filter (λ g. drives_key g key) (records_of self.now.gates)) }
    {
        let _nets = &self.nets;
    }
}
