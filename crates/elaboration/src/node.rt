//! What the nets of a module are in the design.

ghost use Rattle.std.specs.Prelude.{◌≡◌};
ghost use Rattle.elaboration.specs.kept.Numbered.{bit_ref, is_own_slot, run_bit, slot_node};

use fourstate::{NetKind, Value};
use std::mem::size_of;
use vtext::Range;

// A design has a slot for each of its nets, and the terminals of its gates are looked up in no order: slots stay small.
const _: () = prove!(size_of::<Slot>() == 16);

/// Nets of the design that stand one after another: a scalar is one, the bits of a vector stand in order from the left.
#[derive(Clone, Copy, Debug, PartialEq, Eq)]
pub struct NetRun {
    /// The place of the first one in the design's order, from 0.
    pub place: u32,
    /// How many there are.
    pub width: u32,
    /// Their kind.
    pub kind: NetKind,
    /// Whether they are inputs of the design.
    pub is_input: bool,
}

impl NetRun {
    /// The net at a place of the run alone; past its end none.
    fn bit(self, place: u32) -> NetRun
        ensures { result ≡ run_bit place self }
    {
        NetRun {
            place: self.place.saturating_add(place),
            width: if place < self.width { 1 } else { 0 },
            ..self
        }
    }
}

/// What a net of a module is in the design.
#[derive(Clone, Copy, Debug, PartialEq, Eq)]
pub enum NodeRef {
    /// The nets that its bits are.
    Nets(NetRun),
    /// The constant that the port is tied to.
    Tied(Value),
}

impl NodeRef {
    /// The bit of an index alone, of what has this range; a scalar is its one bit.
    pub fn bit(self, range: Option<Range>, index: u16) -> NodeRef
        ensures { result ≡ bit_ref range index self }
    {
        match (self, range) {
            (NodeRef::Nets(run), Some(range)) => NodeRef::Nets(run.bit(range.place(index) as u32)),
            (node, _) => node,
        }
    }
}

/// A net of a module in one of its scopes.
#[derive(Clone, Copy, Debug, PartialEq, Eq)]
pub enum Slot {
    /// Nets that come with the scope, since it is no connected port.
    Own(NetRun),
    /// The nets that the port is connected to.
    Joined(NetRun),
    /// The constant that the port is tied to.
    Tied(Value),
}

impl Slot {
    /// What it is in the design.
    #[inline(always)]
    pub fn node(self) -> NodeRef
        ensures { result ≡ slot_node self }
    {
        match self {
            Slot::Own(run) | Slot::Joined(run) => NodeRef::Nets(run),
            Slot::Tied(value) => NodeRef::Tied(value),
        }
    }

    /// Whether it comes with the scope.
    pub fn is_own(self) -> bool
        ensures { result ≡ is_own_slot self }
    {
        match self {
            Slot::Own(_) => true,
            Slot::Joined(_) | Slot::Tied(_) => false,
        }
    }
}
