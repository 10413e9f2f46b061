//! Edits of the nets of a design.

ghost use Rattle.std.specs.Prelude.{◌≡◌, ◌≤◌, ◌<◌, [], true, false, IsSome, IsSomeAnd, IfSome, IfOk, OnErr, OnOk, length};
ghost use Rattle.fourstate.specs.declared.limits.TheConstants.{MAX_TIME};
ghost use Rattle.catalog.specs.Catalog.{record_at};
ghost use Rattle.catalog.specs.kept.Catalog.{with_record};
ghost use Rattle.design.specs.declared.limits.TheConstants.{MAX_NETS, MAX_POINTS};
ghost use Rattle.design.specs.Keys.{netlist};
ghost use Rattle.design.specs.kept.Keys.{net_by_key, with_keyed_net, with_net_at, without_keyed_net};
ghost use Rattle.design.specs.kept.Records.{HasRoom, IsNetChange, net_changed, net_with_kind, net_without_point};
ghost use Rattle.design.specs.Netlist.{has_net, has_point, is_used, net_with_point, new_net, point_total, with_net, with_net_changed, with_net_kind, with_point, without_net, without_point};

use crate::design::Design;
use crate::edit_gates::clear;
use crate::key::NetKey;
use crate::name::Name;
use crate::net::Net;
use crate::net_change::NetChange;
use catalog::{Catalog, Key};
use fourstate::{NetKind, Value};
use std::alloc::{AllocError, Global};

impl Design {
    /// Adds a net that is no input, and gives its key.
    pub fn add_net(self, name: Name, kind: NetKind) -> Result<(Design, NetKey), AllocError>
        requires absent { has_net (netlist self) name ≡ false }
        requires room { length (netlist self).nets < MAX_NETS }
        ensures by_key { IfOk result (λ made. made.0 ≡ with_keyed_net self (new_net name kind false) made.1) }
        ensures by_name { IfOk result (λ made. netlist made.0 ≡ with_net (netlist self) (new_net name kind false)) }
        ensures there { IfOk result (λ made. net_by_key made.0 made.1 ≡ Some (new_net name kind false)) }
    {
        let mut design = self;
        let key = design.push_net(name, kind, false)?;
        Ok((design, key))
    }

    /// Adds an input, a net of the kind `wire` with no stimulus points, and gives its key.
    pub fn add_input(self, name: Name) -> Result<(Design, NetKey), AllocError>
        requires absent { has_net (netlist self) name ≡ false }
        requires room { length (netlist self).nets < MAX_NETS }
        ensures by_key { IfOk result (λ made. made.0 ≡ with_keyed_net self (new_net name NetKind.Wire true) made.1) }
        ensures by_name { IfOk result (λ made. netlist made.0 ≡ with_net (netlist self) (new_net name NetKind.Wire true)) }
        ensures there { IfOk result (λ made. net_by_key made.0 made.1 ≡ Some (new_net name NetKind.Wire true)) }
    {
        let mut design = self;
        let key = design.push_net(name, NetKind::Wire, true)?;
        Ok((design, key))
    }

    /// Adds a net with no stimulus points in place, and gives its key. Where memory runs out no net and no gate is left.
    pub fn push_net(
        &mut self,
        name: Name,
        kind: NetKind,
        is_input: bool,
    ) -> Result<NetKey, AllocError>
        requires absent { has_net (netlist self.old) name ≡ false }
        requires room { length (netlist self.old).nets < MAX_NETS }
        ensures by_key { IfOk result (λ key. self.new ≡ with_keyed_net self.old (new_net name kind is_input) key) }
        ensures by_name { OnOk result (netlist self.new ≡ with_net (netlist self.old) (new_net name kind is_input)) }
        ensures there { IfOk result (λ key. net_by_key self.new key ≡ Some (new_net name kind is_input)) }
        ensures err { OnErr result (self.new ≡ record self.old { nets = []; gates = [] }) }
    {
        let net = Net::new(name, kind, is_input);
        net.lawful();
        match self.nets.push(net) {
            Ok(number) => Ok(NetKey { number }),
            Err(error) => {
                clear(
                    &mut self.nets,
                    &mut self.gates,
                    &mut self.points,
                    &mut self.wires,
                );
                Err(error)
            }
        }
    }

    /// Takes a net that no gate reads or drives away, and its points with it. The others keep their keys.
    pub fn remove_net(self, net: NetKey) -> Result<Design, AllocError>
        requires unused { IsSomeAnd (net_by_key self net) (λ n. is_used (netlist self) n.name ≡ false) }
        ensures by_key { IfOk result (λ made. made ≡ without_keyed_net self net) }
        ensures by_name { IfOk result (λ made. IfSome (net_by_key self net) (λ n. netlist made ≡ without_net (netlist self) n.name)) }
    {
        let points = self.points - self.net_of(net).point_count();
        let nets = self.nets.remove(net.number)?;
        Ok(Design {
            nets,
            points,
            ..self
        })
    }

    /// Gives a net another kind.
    pub fn set_net_kind(self, net: NetKey, kind: NetKind) -> Result<Design, AllocError>
        requires { IsSome (net_by_key self net) }
        ensures by_key { IfOk result (λ made. IfSome (net_by_key self net) (λ n. made ≡ with_net_at self net (net_with_kind n kind))) }
        ensures by_name { IfOk result (λ made. IfSome (net_by_key self net) (λ n. netlist made ≡ with_net_kind (netlist self) n.name kind)) }
    {
        self.change_net(net, NetChange::Kind(kind))
    }

    /// Sets the stimulus of an input from the moment `t` on, until its next point.
    pub fn set_point(self, net: NetKey, t: u64, value: Value) -> Result<Design, AllocError>
        requires input { IsSomeAnd (net_by_key self net) (λ n. n.is_input ≡ true) }
        requires moment { t ≤ MAX_TIME }
        requires room { IsSomeAnd (net_by_key self net) (λ n. has_point n.points t ≡ false → point_total (netlist self).nets < MAX_POINTS) }
        ensures by_key { IfOk result (λ made. IfSome (net_by_key self net) (λ n. made ≡ with_net_at self net (net_with_point n t value))) }
        ensures by_name { IfOk result (λ made. IfSome (net_by_key self net) (λ n. netlist made ≡ with_point (netlist self) n.name t value)) }
    {
        self.change_net(net, NetChange::Point(t, value))
    }

    /// Takes the stimulus point of a net at the moment `t` away.
    pub fn remove_point(self, net: NetKey, t: u64) -> Result<Design, AllocError>
        requires { IsSomeAnd (net_by_key self net) (λ n. has_point n.points t ≡ true) }
        ensures by_key { IfOk result (λ made. IfSome (net_by_key self net) (λ n. made ≡ with_net_at self net (net_without_point n t))) }
        ensures by_name { IfOk result (λ made. IfSome (net_by_key self net) (λ n. netlist made ≡ without_point (netlist self) n.name t)) }
    {
        self.change_net(net, NetChange::NoPoint(t))
    }

    /// Puts a net with a change back in its place.
    fn change_net(self, net: NetKey, change: NetChange) -> Result<Design, AllocError>
        requires change { IsSomeAnd (net_by_key self net) (λ n. IsNetChange change n) }
        requires room { IsSomeAnd (net_by_key self net) (λ n. HasRoom change n (point_total (netlist self).nets)) }
        ensures by_key { IfOk result (λ made. IfSome (net_by_key self net) (λ n. made ≡ with_net_at self net (net_changed change n))) }
        ensures by_name { IfOk result (λ made. IfSome (net_by_key self net) (λ n. netlist made ≡ with_net_changed (netlist self) n.name (net_changed change))) }
    {
        let others = self.points - self.net_of(net).point_count();
        let alloc = self.wires.allocator();
        let (nets, count) = with_change_at(alloc, self.nets, net.number, change)?;
        Ok(Design {
            nets,
            points: others + count,
            ..self
        })
    }
}

/// The nets with one changed, and how many points that one has.
fn with_change_at(
    alloc: Global,
    nets: Catalog<Net>,
    key: Key,
    change: NetChange,
) -> Result<(Catalog<Net>, usize), AllocError>
    requires { IsSomeAnd (record_at nets key) (λ n. IsNetChange change n) }
    ensures nets { IfOk result (λ made. IfSome (record_at nets key) (λ n. made.0 ≡ with_record nets key (net_changed change n))) }
    ensures count { IfOk result (λ made. IfSome (record_at nets key) (λ n. made.1 ≡ length (net_changed change n).points)) }
{
    let (nets, old) = take(nets, key)?;
    let new = old.changed(alloc, change)?;
    let count = new.point_count();
    let nets = nets.replace(key, new)?;
    Ok((nets, count))
}

/// The net of a key, and the nets with one without points in its place: so its points are changed where they are, unless
/// a copy shares them.
fn take(nets: Catalog<Net>, key: Key) -> Result<(Catalog<Net>, Net), AllocError>
    requires { IsSome (record_at nets key) }
    ensures { IfOk result (λ taken. (record_at nets key ≡ Some taken.1) × (taken.0 ≡ with_record nets key (new_net taken.1.name taken.1.kind taken.1.is_input))) }
{
    let Some(net) = nets.get(key) else {
        unreachable!();
    };
    let (net, bare) = net.parted()?;
    let nets = nets.replace(key, bare)?;
    Ok((nets, net))
}
