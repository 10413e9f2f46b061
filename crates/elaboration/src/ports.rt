//! The second pass: the port connections of instances (IEEE 1364-2005, 12.3).

ghost use Rattle.std.specs.Prelude.{◌≡◌, ◌<◌, ℕ, IfOk, length, option_and_then, slice_index_or};
ghost use Rattle.vtext.specs.Modules.{ModuleEntry};
ghost use Rattle.elaboration.specs.Ports.{connection_fault, connections_fault, first_instance_fault, has_stranger, instance_fault, is_named_twice, is_output, is_tied, port_at, ports_fault, second_pass};

use crate::lines::fault_at;
use crate::rings::at;
use crate::widths::is_width_wrong;
use indexmap::IndexSet;
use std::alloc::{AllocError, Global};
use vtext::{
    Direction, Module, ModuleInstance, Modules, Net, PortConnection, ReadFault, ReadFaultKind,
    Terminal,
};

/// The port of a module that the connection at a place is for, if there is one.
pub fn port_at(inner: &Module, place: usize, connection: PortConnection) -> Option<Net>
    ensures { result ≡ port_at inner.now place connection }
{
    let net = match connection.port {
        Some(name) => inner.net(name)?,
        None => {
            let (_, net) = inner.net_at(place)?;
            net
        }
    };
    if net.port { Some(net) } else { None }
}

/// Whether a connection is for no port.
fn has_stranger(inner: &Module, connections: &[PortConnection]) -> bool
    ensures { result ≡ has_stranger inner.now 0 connections.now }
{
    for (place, connection) in connections.iter().enumerate() {
        if port_at(inner, place, *connection).is_none() {
            return true;
        }
    }
    false
}

/// Whether a port is named twice.
fn is_named_twice(alloc: Global, connections: &[PortConnection]) -> Result<bool, AllocError>
    ensures { IfOk result (λ twice. twice ≡ is_named_twice connections.now) }
{
    let mut named = IndexSet::<u32>::new(alloc);
    for connection in connections {
        if let Some(name) = connection.port {
            if !named.insert(name)? {
                return Ok(true);
            }
        }
    }
    Ok(false)
}

fn is_output(net: Net) -> bool
    ensures { result ≡ is_output net.direction }
{
    match net.direction {
        Some(Direction::Output) => true,
        _ => false,
    }
}

fn is_tied(terminal: Option<Terminal>) -> bool
    ensures { result ≡ is_tied terminal }
{
    match terminal {
        Some(Terminal::Constant(_)) => true,
        _ => false,
    }
}

/// Why the connection of a port is refused, if it is: the widths differ, or a constant is on an output.
fn connection_fault(outer: &Module, connection: PortConnection, port: Net) -> Option<ReadFaultKind>
    ensures { result ≡ connection_fault outer.now.nets connection port }
{
    if is_width_wrong(outer, connection.terminal, port) {
        Some(ReadFaultKind::WidthMismatch)
    } else if is_output(port) && is_tied(connection.terminal) {
        Some(ReadFaultKind::PortKind)
    } else {
        None
    }
}

/// Why the connection at a place is refused, if it is.
pub fn fault_of_connection(
    outer: &Module,
    inner: &Module,
    place: usize,
    connection: PortConnection,
) -> Option<ReadFaultKind>
    ensures { result ≡ option_and_then (connection_fault outer.now.nets connection) (port_at inner.now place connection) }
{
    let port = port_at(inner, place, connection)?;
    connection_fault(outer, connection, port)
}

/// Why the first connection that is refused is.
fn connections_fault(
    outer: &Module,
    inner: &Module,
    connections: &[PortConnection],
) -> Option<ReadFaultKind>
    ensures { result ≡ connections_fault outer.now.nets inner.now 0 connections.now }
{
    for (place, connection) in connections.iter().enumerate() {
        if let Some(kind) = fault_of_connection(outer, inner, place, *connection) {
            return Some(kind);
        }
    }
    None
}

/// Why an instance of a module is refused, if it is.
fn ports_fault(
    alloc: Global,
    outer: &Module,
    connections: &[PortConnection],
    inner: &Module,
) -> Result<Option<ReadFaultKind>, AllocError>
    ensures { IfOk result (λ kind. kind ≡ ports_fault outer.now.nets connections.now inner.now) }
{
    if has_stranger(inner, connections) || is_named_twice(alloc, connections)? {
        return Ok(Some(ReadFaultKind::PortCount));
    }
    Ok(connections_fault(outer, inner, connections))
}

/// Why an instance in a module is refused, if it is.
pub fn instance_fault(
    alloc: Global,
    modules: &Modules,
    outer: &Module,
    instance: &ModuleInstance,
) -> Result<Option<ReadFaultKind>, AllocError>
    ensures { IfOk result (λ kind. kind ≡ instance_fault modules.now.modules outer.now.nets instance.now) }
{
    match modules.find(instance.module()) {
        Some(inner) => ports_fault(alloc, outer, instance.connections(), inner),
        None => Ok(Some(ReadFaultKind::UnknownModule)),
    }
}

/// The first fault of the instances in a module.
fn first_instance_fault(
    alloc: Global,
    text: &[u8],
    modules: &Modules,
    outer: &Module,
) -> Result<Option<ReadFault>, AllocError>
    ensures { IfOk result (λ fault. fault ≡ first_instance_fault text.now modules.now.modules outer.now.nets outer.now.instances) }
{
    for instance in outer.instances() {
        if let Some(kind) = instance_fault(alloc, modules, outer, instance)? {
            return Ok(Some(fault_at(text, instance.start(), kind)));
        }
    }
    Ok(None)
}

/// The first fault of the instances of all modules, if there is one.
pub fn second_pass(
    alloc: Global,
    text: &[u8],
    modules: &Modules,
) -> Result<Option<ReadFault>, AllocError>
    ensures { IfOk result (λ fault. fault ≡ second_pass text.now modules.now.modules) }
{
    for place in 0..modules.count() {
        let (_, outer) = at(modules, place);
        if let Some(fault) = first_instance_fault(alloc, text, modules, outer)? {
            return Ok(Some(fault));
        }
    }
    Ok(None)
}

/// The instances in the module at a place.
pub fn instances_at<'a>(modules: &'a Modules, place: usize) -> &'a [ModuleInstance]
    requires { place < length modules.now.modules }
    ensures { (d : ℕ × ModuleEntry) → result.now ≡ (slice_index_or modules.now.modules place d).1.instances }
{
    match modules.at(place) {
        Some((_, module)) => module.instances(),
        None => unreachable!(),
    }
}
