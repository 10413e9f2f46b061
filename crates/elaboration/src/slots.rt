//! What the nets of a module are in a scope.

ghost use Rattle.std.specs.Prelude.{◌≡◌, IfOk, length};
ghost use Rattle.vtext.specs.Ranges.{width_of};
ghost use Rattle.elaboration.specs.kept.Numbered.{next_place, place_after, slot_of, slots_from};

use crate::node::{NetRun, NodeRef, Slot};
use std::alloc::{AllocError, Global};
use vtext::{Module, Net};

/// What the nets of a module are, with the place that the next net of the design has.
#[derive(Drop)]
pub struct PlacedSlots {
    pub items: Vec<Slot>,
    pub next: u32,
}

/// What the nets of a module are, whose connected ports are given; the others come with the scope, and have the places from
/// `first` on, each as many as it has bits.
pub fn slots_of(
    alloc: Global,
    entry: &Module,
    is_top: bool,
    given: &[Option<NodeRef>],
    first: u32,
) -> Result<PlacedSlots, AllocError>
    requires { length given.now ≡ length entry.now.nets }
    ensures items { IfOk result (λ slots. slots.items.items ≡ slots_from is_top first entry.now.nets given.now) }
    ensures next { IfOk result (λ slots. slots.next ≡ place_after first entry.now.nets given.now) }
{
    let mut items = Vec::with_capacity(alloc, entry.net_count())?;
    let mut next = first;
    for place in 0..given.len() {
        let Some((_, net)) = entry.net_at(place) else {
            unreachable!()
        };
        let node = given[place];
        items.push(slot_of(is_top, next, net, node))?;
        next = next_place(next, net, node);
    }
    Ok(PlacedSlots { items, next })
}

/// What a net is: a connected port, or a net that comes with the scope and has this place.
fn slot_of(is_top: bool, place: u32, net: Net, given: Option<NodeRef>) -> Slot
    ensures { result ≡ slot_of is_top place net given }
{
    match given {
        Some(NodeRef::Nets(run)) => Slot::Joined(run),
        Some(NodeRef::Tied(value)) => Slot::Tied(value),
        None => Slot::Own(NetRun {
            place,
            width: width_of(net),
            kind: net.net_kind(),
            is_input: is_top && net.is_input(),
        }),
    }
}

/// How many bits a net has.
fn width_of(net: Net) -> u32
    ensures { result ≡ width_of net.range }
{
    net.width() as u32
}

/// The place after a net, as far as numbers go.
fn next_place(place: u32, net: Net, given: Option<NodeRef>) -> u32
    ensures { result ≡ next_place place net given }
{
    match given {
        Some(_) => place,
        None => place.saturating_add(width_of(net)),
    }
}
