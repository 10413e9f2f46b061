//! What the ports of an instance are connected to.

ghost use Rattle.std.specs.Prelude.{◌≡◌, IfOk, None, replicate};
ghost use Rattle.elaboration.specs.kept.Numbered.{AreDistinct, joints_from, place_for, with_joint};

use std::alloc::{AllocError, Global};
use vtext::{Module, PortConnection, Terminal};

/// The place of the net that the connection at a place is for, if the module has one.
fn place_for(entry: &Module, at: usize, connection: PortConnection) -> Option<usize>
    ensures { result ≡ place_for entry.now.nets at connection }
{
    match connection.port {
        Some(name) => entry.net_place(name),
        None => Some(at),
    }
}

/// A list of nothing, so many times.
pub fn nothing<T: Drop>(alloc: Global, count: usize) -> Result<Vec<Option<T>>, AllocError>
    ensures { IfOk result (λ list. list.items ≡ replicate count None) }
{
    let mut list = Vec::with_capacity(alloc, count)?;
    for _place in 0..count {
        list.push(None)?;
    }
    Ok(list)
}

/// What each net of a module is connected to by the connections of an instance, in the order of the nets.
pub fn joints(
    alloc: Global,
    entry: &Module,
    connections: &[PortConnection],
) -> Result<Vec<Option<Terminal>>, AllocError>
    requires { AreDistinct entry.now.nets }
    ensures { IfOk result (λ joints. joints.items ≡ joints_from connections.now 0 0 entry.now.nets) }
{
    let mut joints = nothing(alloc, entry.net_count())?;
    let mut at = connections.len();
    'connections: while at > 0 {
        at -= 1;
        join(&mut joints, entry, at, connections[at]);
    }
    Ok(joints)
}

/// The net that the connection at a place is for is connected so.
fn join(joints: &mut Vec<Option<Terminal>>, entry: &Module, at: usize, connection: PortConnection)
    ensures { joints.new.items ≡ with_joint joints.old.items (place_for entry.now.nets at connection) connection.terminal }
{
    if let Some(place) = place_for(entry, at, connection) {
        if place < joints.len() {
            joints[place] = connection.terminal;
        }
    }
}
