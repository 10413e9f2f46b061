//! The reference implementation of the run, kept as the value of each net at each moment, for tests: its contract is the definition.

ghost use Rattle.std.specs.Prelude.{◌≡◌, ◌++◌, ◌∷◌, [], map, suc, IfOk, OnOk};
ghost use Rattle.design.specs.Keys.{netlist};
ghost use Rattle.scratch.specs.kept.Plain.{values_at, moments};

use crate::moment::Moment;
use crate::wiring::wire;
use design::Design;
use fourstate::Value;
use gatestep::{StepFault, Stepper};
use std::alloc::{AllocError, Global};

/// At each moment from 0 to the horizon the value of each net.
pub fn values<S: Stepper>(
    alloc: Global,
    design: &Design,
    stepper: &mut S,
) -> Result<Vec<Vec<Value>>, StepFault>
    ensures { IfOk result (λ rows. map (λ row. row.items) rows.items
        ≡ map (values_at S.answer (netlist design.now)) (moments (suc (netlist design.now).horizon))) }
{
    let horizon = design.horizon();
    let wiring = wire(alloc, design)?;
    let mut moment = Moment::before(alloc, design)?;
    let mut rows = Vec::new(alloc);
    for t in 0..horizon + 1 {
        moment.pass(design, &wiring, stepper, t)?;
        push_row(alloc, moment.values.as_slice(), &mut rows)?;
    }
    Ok(rows)
}

fn push_row(alloc: Global, values: &[Value], rows: &mut Vec<Vec<Value>>) -> Result<(), AllocError>
    ensures { OnOk result (map (λ row. row.items) rows.new.items ≡ map (λ row. row.items) rows.old.items ++ values.now ∷ []) }
{
    rows.push(Vec::from_slice(alloc, values)?)?;
    Ok(())
}
