//! Where the fault of modules lies in the text, and what else it names.

ghost use Rattle.std.specs.Prelude.{◌≡◌, ℕ, [], IfOk, nat_eq, option_and_then, option_map};
ghost use Rattle.std.specs.Map.{lookup};
ghost use Rattle.elaboration.specs.declared.fault_places.Party.TheVariants.{Port};
ghost use Rattle.std.specs.List.{find, list_any};
ghost use Rattle.indexmap.specs.IndexSet.{contains};
ghost use Rattle.elaboration.specs.FaultPlaces.{again_name, fault_place, instance_place, misfit_name, module_place, port_name, refused_from, refused_in, stranger_name, together_place, top_place, tops_place, wrong_port};
ghost use Rattle.elaboration.specs.Tops.{instantiates, is_recursive, tops_of};

use crate::ports::{fault_of_connection, instance_fault, port_at};
use crate::ranks::Ranks;
use crate::rings::{at, is_recursive};
use crate::tops::{instantiated, next_top};
use indexmap::IndexSet;
use std::alloc::{AllocError, Global};
use vtext::{Module, ModuleInstance, Modules, PortConnection, ReadFaultKind};

/// What a fault of modules names beside the word at which it lies: by the number of a name.
#[derive(Clone, Copy, Debug, PartialEq, Eq)]
pub enum Party {
    /// A module.
    Module(u32),
    /// A port.
    Port(u32),
}

/// Where a fault of modules lies.
#[derive(Clone, Copy, Debug, PartialEq, Eq)]
pub struct FaultPlace {
    /// Where the instance's name, or the word `module`, begins in the text, from 0.
    pub start: u32,
    /// What else the fault names.
    pub party: Option<Party>,
}

/// The name of the first connection that is for no port, if it has one.
fn stranger_name(inner: &Module, connections: &[PortConnection]) -> Option<u32>
    ensures { result ≡ stranger_name inner.now 0 connections.now }
{
    for (place, connection) in connections.iter().enumerate() {
        if port_at(inner, place, *connection).is_none() {
            return connection.port;
        }
    }
    None
}

/// The first name of a port that stands in an earlier connection too.
fn again_name(alloc: Global, connections: &[PortConnection]) -> Result<Option<u32>, AllocError>
    ensures { IfOk result (λ name. name ≡ again_name [] connections.now) }
{
    let mut named = IndexSet::<u32>::new(alloc);
    for connection in connections {
        if let Some(name) = connection.port {
            if !named.insert(name)? {
                return Ok(Some(name));
            }
        }
    }
    Ok(None)
}

/// The name of the port that a connection at a place is for.
fn port_name(inner: &Module, place: usize, connection: PortConnection) -> Option<u32>
    ensures { result ≡ port_name inner.now place connection }
{
    match connection.port {
        Some(name) => Some(name),
        None => {
            let (name, _) = inner.net_at(place)?;
            Some(name)
        }
    }
}

/// The name of the port of the first connection whose width or kind is refused.
fn misfit_name(outer: &Module, inner: &Module, connections: &[PortConnection]) -> Option<u32>
    ensures { result ≡ misfit_name outer.now.nets inner.now 0 connections.now }
{
    for (place, connection) in connections.iter().enumerate() {
        if fault_of_connection(outer, inner, place, *connection).is_some() {
            return port_name(inner, place, *connection);
        }
    }
    None
}

/// The name of the port at which connections to a module have a fault of this kind.
fn wrong_port(
    alloc: Global,
    outer: &Module,
    connections: &[PortConnection],
    kind: ReadFaultKind,
    inner: &Module,
) -> Result<Option<u32>, AllocError>
    ensures { IfOk result (λ name. name ≡ wrong_port outer.now.nets connections.now kind inner.now) }
{
    match kind {
        ReadFaultKind::PortCount => match stranger_name(inner, connections) {
            Some(name) => Ok(Some(name)),
            None => again_name(alloc, connections),
        },
        _ => Ok(misfit_name(outer, inner, connections)),
    }
}

/// The port that a fault of this kind of an instance names.
fn port_party(
    alloc: Global,
    modules: &Modules,
    outer: &Module,
    instance: &ModuleInstance,
    kind: ReadFaultKind,
) -> Result<Option<Party>, AllocError>
    ensures { IfOk result (λ party. party ≡ option_map Port (option_and_then (wrong_port outer.now.nets instance.now.connections kind) (lookup (nat_eq instance.now.«module») modules.now.modules))) }
{
    let Some(inner) = modules.find(instance.module()) else {
        return Ok(None);
    };
    match wrong_port(alloc, outer, instance.connections(), kind, inner)? {
        Some(name) => Ok(Some(Party::Port(name))),
        None => Ok(None),
    }
}

/// The place of a fault of this kind of an instance in a module.
fn instance_place(
    alloc: Global,
    modules: &Modules,
    outer: &Module,
    instance: &ModuleInstance,
    kind: ReadFaultKind,
) -> Result<FaultPlace, AllocError>
    ensures { IfOk result (λ place. place ≡ instance_place modules.now.modules outer.now.nets instance.now kind) }
{
    let party = match kind {
        ReadFaultKind::UnknownModule => Some(Party::Module(instance.module())),
        _ => port_party(alloc, modules, outer, instance, kind)?,
    };
    Ok(FaultPlace {
        start: instance.start(),
        party,
    })
}

/// The place of the first fault of the instances in a module.
fn refused_in(
    alloc: Global,
    modules: &Modules,
    outer: &Module,
) -> Result<Option<FaultPlace>, AllocError>
    ensures { IfOk result (λ place. place ≡ refused_in modules.now.modules outer.now.nets outer.now.instances) }
{
    for instance in outer.instances() {
        if let Some(kind) = instance_fault(alloc, modules, outer, instance)? {
            let place = instance_place(alloc, modules, outer, instance, kind)?;
            return Ok(Some(place));
        }
    }
    Ok(None)
}

/// The place of the first fault of the instances of all modules.
fn refused(alloc: Global, modules: &Modules) -> Result<Option<FaultPlace>, AllocError>
    ensures { IfOk result (λ place. place ≡ refused_from modules.now.modules modules.now.modules) }
{
    for place in 0..modules.count() {
        let (_, outer) = at(modules, place);
        if let Some(found) = refused_in(alloc, modules, outer)? {
            return Ok(Some(found));
        }
    }
    Ok(None)
}

/// The place of a module, which the fault names.
fn module_place(name: u32, entry: &Module) -> FaultPlace
    ensures { result ≡ module_place (name, entry.now) }
{
    FaultPlace {
        start: entry.start(),
        party: Some(Party::Module(name)),
    }
}

/// The place of the module at the top, where the fault is one of its design.
fn bare_place(name: u32, entry: &Module) -> FaultPlace
    ensures { result ≡ top_place (name, entry.now) }
{
    let _ = name;
    FaultPlace {
        start: entry.start(),
        party: None,
    }
}

/// The place of the first module that is among its own instances, or theirs, and so on.
fn recursive(alloc: Global, modules: &Modules) -> Result<Option<FaultPlace>, AllocError>
    ensures { IfOk result (λ place. place ≡ option_map module_place (find (is_recursive modules.now.modules) modules.now.modules)) }
{
    let ranks = Ranks::of(alloc, modules)?;
    for place in 0..modules.count() {
        let (name, entry) = at(modules, place);
        if is_recursive(alloc, modules, &ranks, name)? {
            return Ok(Some(module_place(name, entry)));
        }
    }
    Ok(None)
}

/// The place of the second module that no module has an instance of, where a set has the names of those that do; of one alone
/// its own.
fn top_place(modules: &Modules, names: &IndexSet<u32>) -> Option<FaultPlace>
    ensures { ((name : ℕ) → contains nat_eq names.now name ≡ list_any (λ m. instantiates m.1 name) modules.now.modules) →
        result ≡ tops_place (tops_of modules.now.modules) }
{
    let first = next_top(modules, names, 0)?;
    match next_top(modules, names, first + 1) {
        Some(second) => {
            let (name, entry) = at(modules, second);
            Some(module_place(name, entry))
        }
        None => {
            let (top, entry) = at(modules, first);
            Some(bare_place(top, entry))
        }
    }
}

/// The place of the fault of the modules together.
fn together(alloc: Global, modules: &Modules) -> Result<Option<FaultPlace>, AllocError>
    ensures { IfOk result (λ place. place ≡ together_place modules.now.modules) }
{
    if let Some(place) = recursive(alloc, modules)? {
        return Ok(Some(place));
    }
    let names = instantiated(alloc, modules)?;
    Ok(top_place(modules, &names))
}

/// Where the fault of modules lies that have one; none where there is no module. Of modules without a fault it is the word
/// `module` of the top.
pub fn fault_place(alloc: Global, modules: &Modules) -> Result<Option<FaultPlace>, AllocError>
    ensures { IfOk result (λ place. place ≡ fault_place modules.now.modules) }
{
    if let Some(place) = refused(alloc, modules)? {
        return Ok(Some(place));
    }
    let place = together(alloc, modules)?;
    Ok(place)
}
