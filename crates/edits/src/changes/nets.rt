//! Edits of nets.

ghost use Rattle.std.specs.Prelude.{◌≡◌, ◌∷◌, [], true, false, IfOk, IsSome, IsSomeAnd};
ghost use Rattle.fourstate.specs.declared.net.NetKind.TheVariants.{Wire};
ghost use Rattle.design.specs.Keys.{name_of, netlist};
ghost use Rattle.design.specs.kept.Keys.{net_by_key};
ghost use Rattle.design.specs.Netlist.{is_used, new_net, with_net, with_net_kind, without_net};
ghost use Rattle.edits.specs.kept.Changes.{FindsNet, Passes, Resolves, TakesNet};
ghost use Rattle.edits.specs.Checks.{net_there, new_net_checks};
ghost use Rattle.edits.specs.kept.Touched.{Touches};
ghost use Rattle.edits.specs.declared.edit.Edit.TheVariants as edit;

use crate::changes::change::Change;
use crate::changes::touch::Touch;
use crate::fault::EditFault;
use design::{Design, MAX_NETS, Name, NetKey};
use fourstate::NetKind;
use std::alloc::{AllocError, Global};

pub fn resolve_add_net<'e>(
    design: &Design,
    name: &'e str,
    kind: NetKind,
) -> Result<Change<'e>, EditFault>
    ensures { Resolves design.now (edit.AddNet name.now kind) result }
{
    check_new_net(design, name)?;
    Ok(Change::AddNet { name, kind })
}

pub fn resolve_add_input<'e>(design: &Design, name: &'e str) -> Result<Change<'e>, EditFault>
    ensures { Resolves design.now (edit.AddInput name.now) result }
{
    check_new_net(design, name)?;
    Ok(Change::AddInput { name })
}

/// Whether a net of this name may be added.
fn check_new_net(design: &Design, name: &str) -> Result<(), EditFault>
    ensures { Passes (new_net_checks (netlist design.now) name.now) result (λ _. TakesNet (netlist design.now) name.now) }
{
    if !Name::is_valid(name) {
        Err(EditFault::BadName)
    } else if design.has_net(name) {
        Err(EditFault::DuplicateName)
    } else if design.net_count() >= MAX_NETS {
        Err(EditFault::TooMany)
    } else {
        Ok(())
    }
}

pub fn add_net(
    alloc: Global,
    design: Design,
    name: &str,
    kind: NetKind,
) -> Result<(Design, Touch), AllocError>
    requires { TakesNet (netlist design) name.now }
    ensures by_name { IfOk result (λ made. netlist made.0 ≡ with_net (netlist design) (new_net name.now kind false)) }
    ensures touched { IfOk result (Touches design) }
{
    let name = Name::new(alloc, name)?;
    let (new, key) = design.add_net(name, kind)?;
    Ok((new, Touch::Net(key)))
}

pub fn add_input(alloc: Global, design: Design, name: &str) -> Result<(Design, Touch), AllocError>
    requires { TakesNet (netlist design) name.now }
    ensures by_name { IfOk result (λ made. netlist made.0 ≡ with_net (netlist design) (new_net name.now Wire true)) }
    ensures touched { IfOk result (Touches design) }
{
    let name = Name::new(alloc, name)?;
    let (new, key) = design.add_input(name)?;
    Ok((new, Touch::Net(key)))
}

#[tactic(auto, using(crate::proofs::ChangeLemmas::used_found, crate::proofs::ChangeLemmas::unused_found))]
pub fn resolve_drop_net<'e>(design: &Design, name: &str) -> Result<Change<'e>, EditFault>
    ensures { Resolves design.now (edit.DropNet name.now) result }
{
    let net = find_net(design, name)?;
    if design.is_used(net) {
        Err(EditFault::NetInUse)
    } else {
        Ok(Change::DropNet(net))
    }
}

pub fn drop_net(design: Design, net: NetKey) -> Result<(Design, Touch), AllocError>
    requires { IsSomeAnd (net_by_key design net) (λ n. is_used (netlist design) n.name ≡ false) }
    ensures by_name { IfOk result (λ made. netlist made.0 ≡ without_net (netlist design) (name_of design.nets net)) }
    ensures touched { IfOk result (Touches design) }
{
    let new = design.remove_net(net)?;
    Ok((new, Touch::Net(net)))
}

pub fn resolve_net_kind<'e>(
    design: &Design,
    name: &str,
    kind: NetKind,
) -> Result<Change<'e>, EditFault>
    ensures { Resolves design.now (edit.SetNetKind name.now kind) result }
{
    let net = find_net(design, name)?;
    Ok(Change::SetNetKind(net, kind))
}

pub fn set_net_kind(
    design: Design,
    net: NetKey,
    kind: NetKind,
) -> Result<(Design, Touch), AllocError>
    requires { IsSome (net_by_key design net) }
    ensures by_name { IfOk result (λ made. netlist made.0 ≡ with_net_kind (netlist design) (name_of design.nets net) kind) }
    ensures touched { IfOk result (Touches design) }
{
    let new = design.set_net_kind(net, kind)?;
    Ok((new, Touch::Net(net)))
}

/// The key of the net of a name.
#[tactic(auto, using(crate::proofs::FoundLemmas::net_found))]
pub fn find_net(design: &Design, name: &str) -> Result<NetKey, EditFault>
    ensures { Passes (net_there (netlist design.now) name.now ∷ []) result (FindsNet design.now name.now) }
{
    match design.net(name) {
        Some(net) => Ok(net),
        None => Err(EditFault::UnknownNet),
    }
}
