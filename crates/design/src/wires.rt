//! Which gates read each net, and which drive it, kept as gates come and go.

ghost use Rattle.std.specs.Prelude.{◌≡◌, ℕ, List, [], IsSome, OnOk};
ghost use Rattle.catalog.specs.Catalog.{record_at};
ghost use Rattle.catalog.specs.kept.Catalog.{keys_of};
ghost use Rattle.design.specs.kept.Keys.{drives_key, reads_key};
ghost use Rattle.design.specs.kept.Lists.{AreChanged, IsInOrder, list_of, with_key_in, without_key};

use crate::by_net::remove;
use crate::gate::Gate;
use crate::key::GateKey;
use crate::key_list::KeyList;
use crate::wiring::{add, add_among, remove_among};
use catalog::Catalog;
use chunked::Chunked;
use std::alloc::{AllocError, Global};

/// The keys of the gates that read each net, and of those that drive it.
#[derive(Debug, Drop)]
pub struct Wires {
    pub fanout: Chunked<KeyList>,
    pub drivers: Chunked<KeyList>,
}

impl Wires {
    /// No gate reads or drives a net.
    pub fn new(alloc: Global) -> Wires
        ensures { result ≡ record { fanout = []; drivers = [] } }
    {
        Wires {
            fanout: Chunked::new(alloc),
            drivers: Chunked::new(alloc),
        }
    }

    /// Where the lists are allocated.
    pub fn allocator(&self) -> Global {
        self.fanout.allocator()
    }

    /// Puts the key of a gate into the lists of the nets that it reads and drives.
    pub fn add(
        &mut self,
        gates: &Catalog<Gate>,
        gate: &Gate,
        key: GateKey,
    ) -> Result<(), AllocError>
        requires there { IsSome (record_at gates.now key) }
        requires readers { (k : ℕ) → IsInOrder (keys_of gates.now) (list_of self.old.fanout k) }
        requires drivers { (k : ℕ) → IsInOrder (keys_of gates.now) (list_of self.old.drivers k) }
        ensures readers { OnOk result (AreChanged (reads_key gate.now) (with_key_in (keys_of gates.now) key) self.old.fanout self.new.fanout) }
        ensures drivers { OnOk result (AreChanged (drives_key gate.now) (with_key_in (keys_of gates.now) key) self.old.drivers self.new.drivers) }
    {
        add_among(&mut self.fanout, gates, gate.inputs(), key)?;
        add(&mut self.drivers, gates, gate.output(), key)?;
        Ok(())
    }

    /// Takes the key of a gate out of the lists of the nets that it reads and drives.
    pub fn remove(&mut self, gate: &Gate, key: GateKey) -> Result<(), AllocError>
        ensures readers { OnOk result (AreChanged (reads_key gate.now) (λ list. without_key list key) self.old.fanout self.new.fanout) }
        ensures drivers { OnOk result (AreChanged (drives_key gate.now) (λ list. without_key list key) self.old.drivers self.new.drivers) }
    {
        remove_among(&mut self.fanout, gate.inputs(), key)?;
        remove(&mut self.drivers, gate.output(), key)?;
        Ok(())
    }

    /// Puts the key of a gate into the lists of the nets that it reads and drives, and takes it out of those of the gate
    /// before.
    pub fn rewire(
        &mut self,
        gates: &Catalog<Gate>,
        old: &Gate,
        new: &Gate,
        key: GateKey,
    ) -> Result<(), AllocError>
        requires there { IsSome (record_at gates.now key) }
        requires readers { (k : ℕ) → IsInOrder (keys_of gates.now) (list_of self.old.fanout k) }
        requires drivers { (k : ℕ) → IsInOrder (keys_of gates.now) (list_of self.old.drivers k) }
        ensures readers { OnOk result ((less : List (List ℕ)) × AreChanged (reads_key old.now) (λ list. without_key list key) self.old.fanout less × AreChanged (reads_key new.now) (with_key_in (keys_of gates.now) key) less self.new.fanout) }
        ensures drivers { OnOk result ((less : List (List ℕ)) × AreChanged (drives_key old.now) (λ list. without_key list key) self.old.drivers less × AreChanged (drives_key new.now) (with_key_in (keys_of gates.now) key) less self.new.drivers) }
    {
        self.remove(old, key)?;
        self.add(gates, new, key)?;
        Ok(())
    }
}

impl Clone for Wires {
    ghost use Rattle.std.specs.Prelude.{◌≡◌};

    ghost is_clone = { λ old new. new ≡ old };

    fn clone(&self) -> Result<Wires, AllocError> {
        let fanout = self.fanout.try_clone()?;
        let drivers = self.drivers.try_clone()?;
        Ok(Wires { fanout, drivers })
    }
}
