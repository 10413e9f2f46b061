//! Nets with their names and the stimulus of inputs.

ghost use Rattle.std.specs.Prelude.{◌≡◌, ◌<◌, ◌≤◌, ℕ, true, IfOk, IfSome, length};
ghost use Rattle.fourstate.specs.declared.limits.TheConstants.{MAX_TIME};
ghost use Rattle.design.specs.kept.Lawful.{IsNet};
ghost use Rattle.design.specs.Netlist.{has_point, net_with_point, new_net, stimulus};
ghost use Rattle.design.specs.kept.Netlist.{next_point};
ghost use Rattle.design.specs.kept.Records.{IsNetChange, net_changed, net_with_kind, net_without_point};

use crate::name::Name;
use crate::net_change::NetChange;
use crate::net_points::Points;
use crate::stimulus::Stimulus;
use catalog::Named;
use fourstate::{NetKind, Value};
use std::alloc::{AllocError, Global};
use std::marker::Model;

/// A net. An input has a stimulus: points in order of time, at most one at each time, each the value from then on.
#[derive(Debug, Drop)]
pub struct Net {
    name: Name,
    kind: NetKind,
    is_input: bool,
    stimulus: Stimulus,
}

impl Model for Net {
    ghost use Rattle.design.specs.Netlist.{NetEntry};
    ghost use Rattle.design.specs.kept.Lawful.{IsNet};

    ghost Value = { NetEntry };

    ghost view = { λ a. record { name = a.name; kind = a.kind; is_input = a.is_input; points = a.stimulus } };

    ghost invariant = { λ a. IsNet (record { name = a.name; kind = a.kind; is_input = a.is_input; points = a.stimulus }) };
}

impl Net {
    /// A net with no points.
    pub(crate) fn new(name: Name, kind: NetKind, is_input: bool) -> Net
        ensures { result ≡ new_net name kind is_input }
    {
        name.lawful();
        Net {
            name,
            kind,
            is_input,
            stimulus: Stimulus::none(),
        }
    }

    /// The same net, and one like it with no points.
    pub(crate) fn parted(&self) -> Result<(Net, Net), AllocError>
        ensures net { IfOk result (λ made. made.0 ≡ self.now) }
        ensures bare { IfOk result (λ made. made.1 ≡ new_net self.now.name self.now.kind self.now.is_input) }
    {
        let name = self.name.clone()?;
        let net = self.clone()?;
        Ok((net, Net::new(name, self.kind, self.is_input)))
    }

    /// The net's name.
    pub fn name(&self) -> &Name
        ensures { result.now ≡ self.now.name }
    {
        &self.name
    }

    /// The net's kind; of an input that was added `wire`.
    pub fn kind(&self) -> NetKind
        ensures { result ≡ self.now.kind }
    {
        self.kind
    }

    /// Whether the net is an input of the design, which its stimulus drives, and no gate.
    pub fn is_input(&self) -> bool
        ensures { result ≡ self.now.is_input }
    {
        self.is_input
    }

    /// How many stimulus points there are.
    pub fn point_count(&self) -> usize
        ensures { result ≡ length self.now.points }
    {
        self.stimulus.len()
    }

    /// The stimulus points, in order of time.
    pub fn points(&self) -> Points<'_>
        ensures { result ≡ self.now.points }
    {
        self.stimulus.points()
    }

    /// The value that the stimulus gives at the moment `t`: that of the latest point at or before it, x without one
    /// (own).
    pub fn stimulus_at(&self, t: u64) -> Value
        ensures { result ≡ stimulus self.now.points t }
    {
        self.stimulus.value_at(t)
    }

    /// Whether a stimulus point is at the moment `t`.
    pub fn has_point(&self, t: u64) -> bool
        ensures { result ≡ has_point self.now.points t }
    {
        self.stimulus.has_point(t)
    }

    /// The moment of the first stimulus point after the moment `t`.
    pub fn next_point(&self, t: u64) -> Option<u64>
        ensures { result ≡ next_point self.now.points t }
    {
        self.stimulus.next_after(t)
    }

    /// The moment from which on the stimulus of another net may differ from that of this one, where that is `t` or later; none
    /// where both are the same from `t` on. Points from the moment `end` on are not all compared: where the two are the same up to
    /// it, that may be any moment from it on. All are in time units.
    pub fn parts_from(&self, other: &Net, t: u64, end: u64) -> Option<u64>
        ensures { (m : ℕ) → t ≤ m → IfSome result (λ u. m < u) → stimulus self.now.points m ≡ stimulus other.now.points m }
    {
        self.stimulus.parts_from(&other.stimulus, t, end)
    }

    /// The net with a change.
    pub(crate) fn changed(self, alloc: Global, change: NetChange) -> Result<Net, AllocError>
        requires { IsNetChange change self }
        ensures { IfOk result (λ net. net ≡ net_changed change self) }
    {
        match change {
            NetChange::Kind(kind) => Ok(self.with_kind(kind)),
            NetChange::Point(t, value) => self.with_point(alloc, t, value),
            NetChange::NoPoint(t) => self.without_point(alloc, t),
        }
    }

    /// The net with another kind.
    fn with_kind(self, kind: NetKind) -> Net
        ensures { result ≡ net_with_kind self kind }
    {
        Net { kind, ..self }
    }

    /// The net with its stimulus set from the moment `t` on, until the next point.
    fn with_point(self, alloc: Global, t: u64, value: Value) -> Result<Net, AllocError>
        requires input { self.is_input ≡ true }
        requires moment { t ≤ MAX_TIME }
        ensures { IfOk result (λ net. net ≡ net_with_point self t value) }
    {
        let stimulus = self.stimulus.with_point(alloc, t, value)?;
        Ok(Net { stimulus, ..self })
    }

    /// The net without its point at the moment `t`.
    fn without_point(self, alloc: Global, t: u64) -> Result<Net, AllocError>
        ensures { IfOk result (λ net. net ≡ net_without_point self t) }
    {
        let stimulus = self.stimulus.without_point(alloc, t)?;
        Ok(Net { stimulus, ..self })
    }

    /// The law of every net; nothing runs.
    pub fn lawful(&self)
        ensures { IsNet self.now }
    {
        let _name = &self.name;
    }
}

impl Clone for Net {
    ghost use Rattle.std.specs.Prelude.{◌≡◌};

    ghost is_clone = { λ old new. new ≡ old };

    fn clone(&self) -> Result<Net, AllocError> {
        let name = self.name.clone()?;
        let stimulus = self.stimulus.clone()?;
        Ok(Net {
            name,
            kind: self.kind,
            is_input: self.is_input,
            stimulus,
        })
    }
}

impl Named for Net {
    ghost name = { λ n. n.name };

    fn name(&self) -> &str {
        self.name.as_str()
    }
}
