//! Lists of edits, carried out as one.

ghost use Rattle.std.specs.Prelude.{◌≡◌, ◌<◌, ◌≤◌, ◌*◌, ◌⊎◌, None, Some, IfErr, IfOk, OnOk, MatchResult, length};
ghost use Rattle.edits.specs.Batches.{batch, refusal};
ghost use Rattle.edits.specs.kept.Changes.{Changes};
ghost use Rattle.edits.specs.Edits.{edited};
ghost use Rattle.edits.specs.kept.Touched.{IsTouched, Touches};
ghost use Rattle.design.specs.Keys.{netlist};

use crate::changes::{Change, Touch, carry_out, resolve};
use crate::edit::Edit;
use crate::fault::EditFault;
use crate::limits::MAX_EDITS;
use crate::touched::Touched;
use design::Design;
use std::alloc::Global;

/// The design after the edits, one after another; or the place, from 0, and the fault of the first that is refused.
/// The edit behind as many as a list may have is refused as one too many. Where an allocation was refused the fault is
/// `OutOfMemory`, and the place says nothing. The design that is given stays as it is.
pub fn apply_all(
    alloc: Global,
    design: &Design,
    edits: &[Edit],
) -> Result<Design, (usize, EditFault)>
    ensures ok { IfOk result (λ new. batch (netlist design.now) edits.now ≡ Ok (netlist new)) }
    ensures err { IfErr result (λ refused. (batch (netlist design.now) edits.now ≡ Err refused) ⊎ (refused.1 ≡ EditFault.OutOfMemory)) }
{
    match apply_all_with_touched(alloc, design, edits) {
        Ok((new, _touched)) => Ok(new),
        Err(refused) => Err(refused),
    }
}

/// As `apply_all`, and the nets and the gates that the edits touched: outside of these the new design is the given one.
/// Each edit touches one gate and two nets at most.
pub fn apply_all_with_touched(
    alloc: Global,
    design: &Design,
    edits: &[Edit],
) -> Result<(Design, Touched), (usize, EditFault)>
    ensures ok { IfOk result (λ made. batch (netlist design.now) edits.now ≡ Ok (netlist made.0)) }
    ensures err { IfErr result (λ refused. (batch (netlist design.now) edits.now ≡ Err refused) ⊎ (refused.1 ≡ EditFault.OutOfMemory)) }
    ensures touched { IfOk result (λ made. IsTouched design.now made.0 made.1.nets.items made.1.gates.items) }
    ensures few_nets { IfOk result (λ made. length made.1.nets.items ≤ 2 * length edits.now) }
    ensures few_gates { IfOk result (λ made. length made.1.gates.items ≤ length edits.now) }
{
    let mut touched = Touched::new(alloc);
    let mut new = match design.try_clone() {
        Ok(design) => design,
        Err(_) => return Err((0, EditFault::OutOfMemory)),
    };
    for (place, edit) in edits.iter().enumerate() {
        let (design, touch) = match apply(alloc, new, place, edit) {
            Ok(made) => made,
            Err(fault) => return Err((place, fault)),
        };
        match touched.add(touch) {
            Ok(()) => new = design,
            Err(_) => return Err((place, EditFault::OutOfMemory)),
        }
    }
    match new.close_up() {
        Ok(design) => Ok((design, touched)),
        Err(_) => Err((edits.len(), EditFault::OutOfMemory)),
    }
}

/// The design with the edit that stands at a place of a list, and what it touched.
fn apply(
    alloc: Global,
    design: Design,
    place: usize,
    edit: &Edit,
) -> Result<(Design, Touch), EditFault>
    ensures by_name { MatchResult result
        (λ made. (refusal place (netlist design) edit.now ≡ None) × (netlist made.0 ≡ edited (netlist design) edit.now))
        (λ fault. (refusal place (netlist design) edit.now ≡ Some fault) ⊎ (fault ≡ EditFault.OutOfMemory)) }
    ensures touched { IfOk result (Touches design) }
{
    match resolve_at(place, &design, edit) {
        Err(fault) => Err(fault),
        Ok(change) => match carry_out(alloc, design, change) {
            Ok(made) => Ok(made),
            Err(_) => Err(EditFault::OutOfMemory),
        },
    }
}

/// What the edit that stands at a place of a list changes.
fn resolve_at<'e>(place: usize, design: &Design, edit: &'e Edit) -> Result<Change<'e>, EditFault>
    ensures place { OnOk result (place < MAX_EDITS) }
    ensures ok { IfOk result (Changes design.now edit.now) }
    ensures err { IfErr result (λ fault. refusal place (netlist design.now) edit.now ≡ Some fault) }
{
    if place >= MAX_EDITS {
        return Err(EditFault::TooMany);
    }
    resolve(design, edit)
}
