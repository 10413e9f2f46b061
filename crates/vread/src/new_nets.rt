//! The nets that a design is to have, from those of its scopes.

ghost use Rattle.std.specs.Prelude.{◌≡◌, ◌++◌, ◌∷◌, [], IfOk, IsTrue, OnOk, flat_map};
ghost use Rattle.design.specs.Names.{is_name};
ghost use Rattle.design.specs.Netlist.{new_net};
ghost use Rattle.vtext.specs.Bits.{bit_bytes};
ghost use Rattle.vtext.specs.Names.{name_at};
ghost use Rattle.vread.specs.kept.Parts.{AreNamed, bits_nets, kept_nets, run_net, run_nets, slot_nets};

use crate::names::{bit_in, name_in};
use design::Name;
use elaboration::{NetRun, Scope, Slot};
use fourstate::NetKind;
use std::alloc::{AllocError, Global};
use std::marker::Model;
use vtext::{Names, Net, Range};

/// A net that a design is to have.
#[derive(Drop)]
pub struct NewNet {
    pub name: Name,
    pub kind: NetKind,
    pub is_input: bool,
}

impl Model for NewNet {
    ghost use Rattle.design.specs.Netlist.{NetEntry, new_net};

    ghost Value = { NetEntry };

    ghost view = { λ a. new_net a.name a.kind a.is_input };
}

/// The net of this name, of those that a run names.
fn new_net(name: Name, run: NetRun) -> NewNet
    ensures { result ≡ new_net name run.kind run.is_input }
{
    NewNet {
        name,
        kind: run.kind,
        is_input: run.is_input,
    }
}

/// The nets of some scopes, in their order: `count` of them, as far as is known.
pub fn nets_of(
    alloc: Global,
    names: &Names,
    scopes: &[Scope],
    count: usize,
) -> Result<Vec<NewNet>, AllocError>
    requires { AreNamed (flat_map (kept_nets names.now) scopes.now) }
    ensures { IfOk result (λ nets. nets.items ≡ flat_map (kept_nets names.now) scopes.now) }
{
    let mut nets = Vec::with_capacity(alloc, count)?;
    for scope in scopes {
        add_scope_nets(alloc, &mut nets, names, scope)?;
    }
    Ok(nets)
}

/// Adds the nets that come with a scope.
fn add_scope_nets(
    alloc: Global,
    nets: &mut Vec<NewNet>,
    names: &Names,
    scope: &Scope,
) -> Result<(), AllocError>
    requires { AreNamed (kept_nets names.now scope.now) }
    ensures { OnOk result (nets.new.items ≡ nets.old.items ++ kept_nets names.now scope.now) }
{
    let slots = scope.slots();
    let entry = scope.module();
    for place in 0..slots.len() {
        let Some((name, net)) = entry.net_at(place) else {
            return Ok(());
        };
        add_slot(alloc, nets, names, scope, slots[place], name, net)?;
    }
    Ok(())
}

/// Adds a net of a scope, or the bits of a vector, where it comes with the scope.
fn add_slot(
    alloc: Global,
    nets: &mut Vec<NewNet>,
    names: &Names,
    scope: &Scope,
    slot: Slot,
    name: u32,
    net: Net,
) -> Result<(), AllocError>
    requires { AreNamed (slot_nets names.now scope.now.path slot (name, net)) }
    ensures { OnOk result (nets.new.items ≡ nets.old.items ++ slot_nets names.now scope.now.path slot (name, net)) }
{
    match slot {
        Slot::Own(run) => add_run(alloc, nets, names, scope, run, name, net.range),
        Slot::Joined(_) | Slot::Tied(_) => Ok(()),
    }
}

/// Adds a net of this name in a scope, or its bits, from the left.
fn add_run(
    alloc: Global,
    nets: &mut Vec<NewNet>,
    names: &Names,
    scope: &Scope,
    run: NetRun,
    name: u32,
    range: Option<Range>,
) -> Result<(), AllocError>
    requires { AreNamed (run_nets names.now scope.now.path run name range) }
    ensures { OnOk result (nets.new.items ≡ nets.old.items ++ run_nets names.now scope.now.path run name range) }
{
    match range {
        Some(range) => add_bits(alloc, nets, names, scope, run, name, range),
        None => add_own_net(alloc, nets, names, scope, run, name),
    }
}

/// Adds the bits of a vector, from the left.
fn add_bits(
    alloc: Global,
    nets: &mut Vec<NewNet>,
    names: &Names,
    scope: &Scope,
    run: NetRun,
    name: u32,
    range: Range,
) -> Result<(), AllocError>
    requires { AreNamed (bits_nets names.now scope.now.path run name range) }
    ensures { OnOk result (nets.new.items ≡ nets.old.items ++ bits_nets names.now scope.now.path run name range) }
{
    for place in 0..range.width() {
        let index = range.index(place);
        add_bit(alloc, nets, names, scope, run, name, index)?;
    }
    Ok(())
}

/// Adds the bit of an index.
fn add_bit(
    alloc: Global,
    nets: &mut Vec<NewNet>,
    names: &Names,
    scope: &Scope,
    run: NetRun,
    name: u32,
    index: u16,
) -> Result<(), AllocError>
    requires { IsTrue (is_name (scope.now.path ++ bit_bytes (name_at names.now name) index)) }
    ensures { OnOk result (nets.new.items ≡ nets.old.items ++ run_net names.now scope.now.path run (bit_bytes (name_at names.now name) index) ∷ []) }
{
    let name = bit_in(alloc, scope.path(), names.text(name), index)?;
    nets.push(new_net(name, run))?;
    Ok(())
}

/// Adds a net of this name in a scope.
fn add_own_net(
    alloc: Global,
    nets: &mut Vec<NewNet>,
    names: &Names,
    scope: &Scope,
    run: NetRun,
    name: u32,
) -> Result<(), AllocError>
    requires { IsTrue (is_name (scope.now.path ++ name_at names.now name)) }
    ensures { OnOk result (nets.new.items ≡ nets.old.items ++ run_net names.now scope.now.path run (name_at names.now name) ∷ []) }
{
    let name = name_in(alloc, scope.path(), names.text(name))?;
    nets.push(new_net(name, run))?;
    Ok(())
}
