//! Edits of the stimulus and the horizon.

ghost use Rattle.std.specs.Prelude.{◌≡◌, ◌≤◌, true, IfOk, IsSomeAnd};
ghost use Rattle.design.specs.Keys.{Keyed, name_of, netlist};
ghost use Rattle.design.specs.kept.Keys.{net_by_key};
ghost use Rattle.design.specs.Netlist.{has_point, with_horizon, with_point, without_point};
ghost use Rattle.edits.specs.kept.Changes.{Resolves, TakesPoint};
ghost use Rattle.edits.specs.kept.Touched.{Touches};
ghost use Rattle.edits.specs.declared.edit.Edit.TheVariants as edit;

use crate::changes::change::Change;
use crate::changes::touch::Touch;
use crate::fault::EditFault;
use design::{Design, MAX_POINTS, NetKey};
use fourstate::{MAX_TIME, Value};
use std::alloc::AllocError;

#[tactic(auto, using(crate::proofs::FoundLemmas::net_found))]
pub fn resolve_stim<'e>(
    design: &Design,
    net: &str,
    time: u64,
    value: Value,
) -> Result<Change<'e>, EditFault>
    ensures { Resolves design.now (edit.Stim net.now time value) result }
{
    match design.net(net) {
        None => Err(EditFault::UnknownNet),
        Some(net) if !design.net_of(net).is_input() => Err(EditFault::NotInput),
        Some(_) if time > MAX_TIME => Err(EditFault::TimeTooLarge),
        Some(net) if !design.has_point(net, time) && design.point_count() >= MAX_POINTS => {
            Err(EditFault::TooMany)
        }
        Some(net) => Ok(Change::SetPoint { net, time, value }),
    }
}

pub fn set_point(
    design: Design,
    net: NetKey,
    time: u64,
    value: Value,
) -> Result<(Design, Touch), AllocError>
    requires { TakesPoint design net time }
    ensures by_name { IfOk result (λ made. netlist made.0 ≡ with_point (netlist design) (name_of design.nets net) time value) }
    ensures touched { IfOk result (Touches design) }
{
    let new = design.set_point(net, time, value)?;
    Ok((new, Touch::Net(net)))
}

#[tactic(auto, using(crate::proofs::FoundLemmas::net_found))]
pub fn resolve_unstim<'e>(design: &Design, net: &str, time: u64) -> Result<Change<'e>, EditFault>
    ensures { Resolves design.now (edit.Unstim net.now time) result }
{
    match design.net(net) {
        None => Err(EditFault::UnknownNet),
        Some(net) if !design.net_of(net).is_input() => Err(EditFault::NotInput),
        Some(net) if !design.has_point(net, time) => Err(EditFault::NoSuchPoint),
        Some(net) => Ok(Change::RemovePoint { net, time }),
    }
}

pub fn remove_point(design: Design, net: NetKey, time: u64) -> Result<(Design, Touch), AllocError>
    requires { IsSomeAnd (net_by_key design net) (λ n. has_point n.points time ≡ true) }
    ensures by_name { IfOk result (λ made. netlist made.0 ≡ without_point (netlist design) (name_of design.nets net) time) }
    ensures touched { IfOk result (Touches design) }
{
    let new = design.remove_point(net, time)?;
    Ok((new, Touch::Net(net)))
}

pub fn resolve_horizon<'e>(time: u64) -> Result<Change<'e>, EditFault>
    ensures { (d : Keyed) → Resolves d (edit.Horizon time) result }
{
    if time > MAX_TIME {
        Err(EditFault::TimeTooLarge)
    } else {
        Ok(Change::Horizon(time))
    }
}

pub fn set_horizon(design: Design, time: u64) -> (Design, Touch)
    requires { time ≤ MAX_TIME }
    ensures by_name { netlist result.0 ≡ with_horizon (netlist design) time }
    ensures touched { Touches design result }
{
    (design.set_horizon(time), Touch::Nothing)
}
