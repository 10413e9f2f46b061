//! What is told of a gate that drives an input.

ghost use Rattle.std.specs.Prelude.{◌≡◌, ◌≢◌, ◌≤◌, ◌++◌, ℕ, List, [], All, IfOk, Some, false, true, option_map};
ghost use Rattle.std.specs.List.{find};
ghost use Rattle.std.specs.Option.{option_copied, option_map_or};
ghost use Rattle.design.specs.declared.limits.TheConstants.{MAX_NETS};
ghost use Rattle.elaboration.specs.Elaborations.{elaboration_fault};
ghost use Rattle.elaboration.specs.kept.Elaborations.{IsElaboration};
ghost use Rattle.elaboration.specs.Scopes.{scopes_of};
ghost use Rattle.elaboration.specs.Tops.{top_of};
ghost use Rattle.vread.specs.Drivers.{design_party, driver_text, first_driver, is_driven_input, scopes_party};
ghost use Rattle.vread.specs.LateFaults.{scopes_fault};
ghost use Rattle.vread.specs.kept.Parts.{drives_input, first_kept_driver, kept_gate, net_at, output_of};
ghost use Rattle.vtext.specs.GateNames.{gate_bytes};
ghost use Rattle.vtext.specs.ReadFaults.{out_of_memory};
ghost use Rattle.vtext.specs.kept.Sound.{IsSoundModule};

use crate::knowledge::know;
use crate::late::{drives_input, scopes_fault};
use crate::new_nets::{NewNet, nets_of};
use design::MAX_NETS;
use edits::EditFault;
use elaboration::{Elaboration, NodeRef, Scope, Top, design_within, find_top};
use std::alloc::{AllocError, Global};
use vtext::{Gate, Modules, Names, ReadFault, ReadFaultKind, gate_name};

/// What the fault of a text's modules names as the design of their top: where it is that a gate drives an input, the first such gate
/// and what it drives.
pub fn design_party(alloc: Global, text: &[u8], modules: &Modules) -> Result<Vec<u8>, AllocError>
    requires { All (IsSoundModule modules.now.names) modules.now.modules }
    ensures { IfOk result (λ party. party.items ≡ design_party text.now modules.now) }
{
    match find_top(alloc, text, modules) {
        Ok(top) => scopes_party(alloc, modules, &top),
        Err(fault) => {
            if is_memory(fault) {
                Err(AllocError)
            } else {
                Ok(Vec::new(alloc))
            }
        }
    }
}

/// Whether memory ran out.
fn is_memory(fault: ReadFault) -> bool
    ensures { result ≡ false → fault ≢ out_of_memory }
{
    match fault.kind {
        ReadFaultKind::Edit(EditFault::OutOfMemory) => true,
        _ => false,
    }
}

/// What the fault of the design of a top names.
fn scopes_party(alloc: Global, modules: &Modules, top: &Top) -> Result<Vec<u8>, AllocError>
    requires sound { All (IsSoundModule modules.now.names) modules.now.modules }
    requires top { top_of modules.now.modules ≡ Some top.now }
    requires faultless { (text : List ℕ) × (elaboration_fault text modules.now.modules ≡ None) }
    ensures { IfOk result (λ party. party.items ≡ scopes_party modules.now top.now.1 (scopes_fault modules.now.names modules.now.modules top.now.1)) }
{
    match design_within(alloc, modules, top, MAX_NETS as u32)? {
        Some(elaboration) => elaboration_party(alloc, modules, &elaboration),
        None => Ok(Vec::new(alloc)),
    }
}

/// The same of one whose scopes are listed.
fn elaboration_party(
    alloc: Global,
    modules: &Modules,
    elaboration: &Elaboration,
) -> Result<Vec<u8>, AllocError>
    requires sound { All (IsSoundModule modules.now.names) modules.now.modules }
    requires elaborated { (text : List ℕ) × IsElaboration text modules.now elaboration.now }
    requires few { elaboration.now.net_count ≤ MAX_NETS }
    ensures { IfOk result (λ party. party.items
        ≡ scopes_party modules.now elaboration.now.top.1 (scopes_fault modules.now.names modules.now.modules elaboration.now.top.1)) }
{
    know(modules, elaboration);
    if is_driven_input(scopes_fault(modules.names(), elaboration)) {
        driver_party(alloc, modules, elaboration)
    } else {
        Ok(Vec::new(alloc))
    }
}

fn is_driven_input(kind: Option<ReadFaultKind>) -> bool
    ensures { result ≡ is_driven_input kind }
{
    match kind {
        Some(ReadFaultKind::Edit(EditFault::DrivenInput)) => true,
        _ => false,
    }
}

/// The first gate that drives an input, and what it drives.
fn driver_party(
    alloc: Global,
    modules: &Modules,
    elaboration: &Elaboration,
) -> Result<Vec<u8>, AllocError>
    requires sound { All (IsSoundModule modules.now.names) modules.now.modules }
    requires elaborated { (text : List ℕ) × IsElaboration text modules.now elaboration.now }
    requires driven { is_driven_input (scopes_fault modules.now.names modules.now.modules elaboration.now.top.1) ≡ true }
    ensures { IfOk result (λ party. party.items
        ≡ option_map_or driver_text (first_driver modules.now.names modules.now.modules (scopes_of modules.now.names modules.now.modules elaboration.now.top.1)) []) }
{
    know(modules, elaboration);
    let names = modules.names();
    let scopes = elaboration.scopes();
    let nets = nets_of(alloc, names, scopes, elaboration.net_count())?;
    first_driver_text(alloc, names, nets.as_slice(), scopes)
}

/// The text of the first gate of some scopes that drives an input.
fn first_driver_text(
    alloc: Global,
    names: &Names,
    nets: &[NewNet],
    scopes: &[Scope],
) -> Result<Vec<u8>, AllocError>
    ensures { IfOk result (λ text. text.items ≡ option_map_or driver_text (first_kept_driver names.now nets.now scopes.now) []) }
{
    for scope in scopes {
        if let Some(gate) = input_driver(scope) {
            return driver_text(alloc, names, nets, scope, gate);
        }
    }
    Ok(Vec::new(alloc))
}

/// The first gate of a scope that drives an input.
fn input_driver<'a>(scope: &'a Scope) -> Option<&'a Gate>
    ensures { option_copied result ≡ find (drives_input scope.now) scope.now.entry.gates }
{
    scope
        .module()
        .gates()
        .iter()
        .find(|gate| drives_input(scope, gate))
}

/// What a gate drives, and its name, as they follow the word at fault.
fn driver_text(
    alloc: Global,
    names: &Names,
    nets: &[NewNet],
    scope: &Scope,
    gate: &Gate,
) -> Result<Vec<u8>, AllocError>
    ensures { IfOk result (λ text. text.items ≡ driver_text (kept_gate names.now nets.now scope.now gate.now)) }
{
    let name = gate_name(alloc, names, gate)?;
    let mut text = Vec::from_slice(alloc, b", net ")?;
    text.extend_from_slice(net_name(nets, scope.node(gate.output())))?;
    text.extend_from_slice(b", gate ")?;
    text.extend_from_slice(scope.path())?;
    text.extend_from_slice(name.as_slice())?;
    Ok(text)
}

/// The name of the net of a design that is driven.
fn net_name(nets: &[NewNet], node: NodeRef) -> &[u8]
    ensures { result.now ≡ output_of nets.now node }
{
    match node {
        NodeRef::Nets(run) => name_at(nets, run.place as usize),
        NodeRef::Tied(_) => &[],
    }
}

fn name_at(nets: &[NewNet], place: usize) -> &[u8]
    ensures { result.now ≡ net_at nets.now place }
{
    match nets.get(place) {
        Some(net) => net.name.as_str().as_bytes(),
        None => &[],
    }
}
