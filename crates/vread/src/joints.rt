//! Ports and what they are joined to.

ghost use Rattle.std.specs.Prelude.{◌≡◌, ◌&&◌, not};
ghost use Rattle.elaboration.specs.kept.Numbered.{is_own_slot, slot_node};
ghost use Rattle.vtext.specs.Nets.{net_kind};
ghost use Rattle.vread.specs.LateFaults.{is_clash};
ghost use Rattle.vread.specs.kept.Parts.{any_slot, clashes, is_input_ref, is_misjoined, is_tied};

use elaboration::{NodeRef, Scope, Slot};
use fourstate::{NetKind, NetRule};
use vtext::Net;

/// Whether a port of this kind may not be this: of a kind `wire` or `tri` it takes any net's kind.
fn clashes(kind: NetKind, node: NodeRef) -> bool
    ensures { result ≡ clashes kind node }
{
    match node {
        NodeRef::Nets(run) => run.width > 0 && is_clash(kind.rule(), run.kind.rule()),
        NodeRef::Tied(_) => false,
    }
}

fn is_clash(port: NetRule, net: NetRule) -> bool
    ensures { result ≡ is_clash port net }
{
    port != NetRule::Wire && port != net
}

/// Whether it is a constant.
pub fn is_tied(node: NodeRef) -> bool
    ensures { result ≡ is_tied node }
{
    match node {
        NodeRef::Nets(_) => false,
        NodeRef::Tied(_) => true,
    }
}

/// Whether it is an input of the design, or several.
pub fn is_input(node: NodeRef) -> bool
    ensures { result ≡ is_input_ref node }
{
    match node {
        NodeRef::Nets(run) => run.width > 0 && run.is_input,
        NodeRef::Tied(_) => false,
    }
}

/// Whether a port is joined to a net of another rule.
pub fn is_misjoined(scope: &Scope) -> bool
    ensures { result ≡ any_slot is_misjoined scope.now.slots scope.now.entry.nets }
{
    let slots = scope.slots();
    let entry = scope.module();
    for place in 0..slots.len() {
        let Some((_, net)) = entry.net_at(place) else {
            return false;
        };
        if is_port_misjoined(slots[place], net) {
            return true;
        }
    }
    false
}

fn is_port_misjoined(slot: Slot, net: Net) -> bool
    ensures { result ≡ (not (is_own_slot slot) && clashes (net_kind net) (slot_node slot)) }
{
    !slot.is_own() && clashes(net.net_kind(), slot.node())
}
