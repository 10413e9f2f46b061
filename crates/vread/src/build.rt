//! The design of the modules of a text, or their fault.

ghost use Rattle.std.specs.Prelude.{◌≡◌, ◌⊎◌, ◌<◌, ◌≤◌, ℕ, List, None, Some, All, IfErr, IfOk, length};
ghost use Rattle.design.specs.Keys.{netlist};
ghost use Rattle.elaboration.specs.Elaborations.{elaboration_fault};
ghost use Rattle.elaboration.specs.kept.Elaborations.{IsElaboration};
ghost use Rattle.elaboration.specs.Scopes.{nets_of};
ghost use Rattle.elaboration.specs.Tops.{top_of};
ghost use Rattle.vread.specs.LateFaults.{late_fault, scopes_fault};
ghost use Rattle.vread.specs.Netlists.{design_of, netlist_of, unit_of};
ghost use Rattle.vtext.specs.ReadFaults.{out_of_memory};
ghost use Rattle.vtext.specs.kept.Sound.{IsSoundModule};

use crate::gates::with_gates;
use crate::knowledge::know;
use crate::late::scopes_fault;
use crate::names::name_from;
use crate::nets::with_nets;
use crate::search::crowded_fault;
use design::laws::parts_are_names;
use design::{Design, MAX_NETS, NameHasher};
use elaboration::laws::{scopes_are_sound, terminals_are_nodes};
use elaboration::{Elaboration, Top, design_within, fault_at, find_top};
use fourstate::TimeUnit;
use std::alloc::{AllocError, Global};
use vtext::{Modules, ReadFault};

/// The design of the modules of a text, or their fault. Of a design of too many nets not all scopes are listed.
pub fn design_of(
    alloc: Global,
    hasher: NameHasher,
    text: &[u8],
    modules: &Modules,
) -> Result<Design, ReadFault>
    requires { All (IsSoundModule modules.now.names) modules.now.modules }
    ensures faultless { IfOk result (λ _. late_fault text.now modules.now ≡ None) }
    ensures whole { IfOk result (λ design. design_of modules.now ≡ Some (netlist design)) }
    ensures err { IfErr result (λ fault. (fault ≡ out_of_memory) ⊎ (late_fault text.now modules.now ≡ Some fault)) }
{
    let top = find_top(alloc, text, modules)?;
    let listed = design_within(alloc, modules, &top, MAX_NETS as u32)?;
    match listed {
        Some(elaboration) => design_of_scopes(alloc, hasher, text, modules, &elaboration),
        None => {
            let fault = crowded_text_fault(alloc, text, modules, &top)?;
            Err(fault)
        }
    }
}

/// The fault of a text whose module at the top has too many nets, but no fault before its scopes.
fn crowded_text_fault(
    alloc: Global,
    text: &[u8],
    modules: &Modules,
    top: &Top,
) -> Result<ReadFault, AllocError>
    requires sound { All (IsSoundModule modules.now.names) modules.now.modules }
    requires top { top_of modules.now.modules ≡ Some top.now }
    requires faultless { elaboration_fault text.now modules.now.modules ≡ None }
    requires crowded { MAX_NETS < length (nets_of modules.now.names modules.now.modules top.now.1) }
    ensures { IfOk result (λ fault. late_fault text.now modules.now ≡ Some fault) }
{
    scopes_are_sound();
    let kind = crowded_fault(alloc, modules, top.module())?;
    Ok(fault_at(text, top.start(), kind))
}

/// The design of not too many nets whose scopes are listed, or their fault.
fn design_of_scopes(
    alloc: Global,
    hasher: NameHasher,
    text: &[u8],
    modules: &Modules,
    elaboration: &Elaboration,
) -> Result<Design, ReadFault>
    requires sound { All (IsSoundModule modules.now.names) modules.now.modules }
    requires elaborated { IsElaboration text.now modules.now elaboration.now }
    requires few { elaboration.now.net_count ≤ MAX_NETS }
    ensures faultless { IfOk result (λ _. late_fault text.now modules.now ≡ None) }
    ensures whole { IfOk result (λ design. design_of modules.now ≡ Some (netlist design)) }
    ensures err { IfErr result (λ fault. (fault ≡ out_of_memory) ⊎ (late_fault text.now modules.now ≡ Some fault)) }
{
    scopes_are_sound();
    terminals_are_nodes();
    if let Some(kind) = scopes_fault(modules.names(), elaboration) {
        return Err(fault_at(text, elaboration.start(), kind));
    }
    let design = design_from(alloc, hasher, modules, elaboration)?;
    Ok(design)
}

/// The design of scopes that have no fault.
fn design_from(
    alloc: Global,
    hasher: NameHasher,
    modules: &Modules,
    elaboration: &Elaboration,
) -> Result<Design, AllocError>
    requires sound { All (IsSoundModule modules.now.names) modules.now.modules }
    requires elaborated { (text : List ℕ) × IsElaboration text modules.now elaboration.now }
    requires faultless { scopes_fault modules.now.names modules.now.modules elaboration.now.top.1 ≡ None }
    ensures { IfOk result (λ design. netlist design ≡ netlist_of modules.now elaboration.now.top) }
{
    know(modules, elaboration);
    parts_are_names();
    let names = modules.names();
    let scopes = elaboration.scopes();
    let name = name_from(alloc, names.text(elaboration.top()))?;
    let design = Design::empty(alloc, hasher, name, unit_of(modules.unit()));
    let design = with_nets(alloc, design, names, scopes, elaboration.net_count())?;
    with_gates(alloc, design, names, scopes)
}

/// The unit of a design: that of its text's directives, 1 ns without one (own).
fn unit_of(unit: Option<TimeUnit>) -> TimeUnit
    ensures { result ≡ unit_of unit }
{
    unit.unwrap_or_default()
}
