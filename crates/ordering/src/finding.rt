//! An order of the gates in which each comes after all that drive what it reads, by counts of what has not come.

ghost use Rattle.std.specs.Prelude.{◌≡◌, true, IfOk, IfSome};
ghost use Rattle.design.specs.Keys.{netlist};
ghost use Rattle.scratch.specs.kept.Kept.{IsWiring};
ghost use Rattle.ordering.specs.kept.Order.{is_order};

use crate::checking::is_ordered;
use design::Design;
use scratch::{Input, PackedInput, Wiring};
use std::alloc::{AllocError, Global};

/// The most drivers that a net has in a design that goes gate after gate (own). The wave of a net is merged from what its drivers
/// give, in work that grows with the drivers times their changes; a run by moments keeps a count of each value instead.
const MOST_DRIVERS: usize = 16;

/// What has not come yet.
#[derive(Drop)]
struct Missing {
    /// Of each net, how many of its drivers.
    drivers: Vec<usize>,
    /// Of each gate, how many of its inputs read a net with drivers that have not come.
    inputs: Vec<usize>,
}

/// An order of the gates in which each comes after all that drive what it reads (own): a gate comes as soon as the last of
/// those has come. `None` where not all come, as in a design with a loop, and where a net has so many drivers that a run by
/// moments is better (`MOST_DRIVERS`). Its work and memory follow the number of gates and connections.
pub fn find_order(
    alloc: Global,
    design: &Design,
    wiring: &Wiring,
) -> Result<Option<Vec<u32>>, AllocError>
    requires { IsWiring (netlist design.now) wiring.now }
    ensures { IfOk result (λ found. IfSome found (λ order. is_order (netlist design.now) order.items ≡ true)) }
{
    if !have_few_drivers(wiring) {
        return Ok(None);
    }
    let order = list_ready(alloc, wiring)?;
    if !is_ordered(alloc, design, wiring, order.as_slice())? {
        return Ok(None);
    }
    Ok(Some(order))
}

/// No net has more than `MOST_DRIVERS` drivers.
fn have_few_drivers(wiring: &Wiring) -> bool {
    for places in &wiring.drivers {
        if places.len() > MOST_DRIVERS {
            return false;
        }
    }
    true
}

/// The gates, each as soon as all that drive what it reads have come; those on a loop, and behind one, never come.
fn list_ready(alloc: Global, wiring: &Wiring) -> Result<Vec<u32>, AllocError> {
    let drivers = count_drivers(alloc, wiring)?;
    let inputs = count_inputs(alloc, wiring, drivers.as_slice())?;
    let mut order = list_free(alloc, inputs.as_slice())?;
    let mut missing = Missing { drivers, inputs };
    for next in 0..wiring.cells.len() {
        let Some(place) = order.get(next) else {
            return Ok(order);
        };
        let place = *place;
        pass(wiring, place, &mut missing, &mut order)?;
    }
    Ok(order)
}

/// How many drivers each net has.
fn count_drivers(alloc: Global, wiring: &Wiring) -> Result<Vec<usize>, AllocError> {
    let mut counts = Vec::with_capacity(alloc, wiring.drivers.len())?;
    for places in &wiring.drivers {
        counts.push(places.len())?;
    }
    Ok(counts)
}

/// How many inputs of each gate read a net with drivers.
fn count_inputs(
    alloc: Global,
    wiring: &Wiring,
    drivers: &[usize],
) -> Result<Vec<usize>, AllocError> {
    let mut counts = Vec::with_capacity(alloc, wiring.cells.len())?;
    for cell in &wiring.cells {
        counts.push(count_driven(cell.inputs(), drivers))?;
    }
    Ok(counts)
}

/// How many of these inputs read a net with drivers.
fn count_driven(inputs: &[PackedInput], drivers: &[usize]) -> usize {
    let mut count = 0usize;
    for input in inputs {
        if is_driven(input.get(), drivers) {
            count = count.saturating_add(1);
        }
    }
    count
}

/// The input reads a net with drivers.
fn is_driven(input: Input, drivers: &[usize]) -> bool {
    match input {
        Input::Fixed(_) => false,
        Input::At(net) => match drivers.get(net as usize) {
            None => false,
            Some(count) => *count > 0,
        },
    }
}

/// The gates of which no input has to wait, with room for all.
fn list_free(alloc: Global, inputs: &[usize]) -> Result<Vec<u32>, AllocError> {
    let mut order = Vec::with_capacity(alloc, inputs.len())?;
    let mut place = 0u32;
    for count in inputs {
        if *count == 0 {
            order.push(place)?;
        }
        place = place.saturating_add(1);
    }
    Ok(order)
}

/// A gate has come: where it is the last driver of its net, the gates that read the net wait for an input less, and those that
/// wait for none come next.
fn pass(
    wiring: &Wiring,
    place: u32,
    missing: &mut Missing,
    order: &mut Vec<u32>,
) -> Result<(), AllocError> {
    let Some(net) = wiring.outputs.get(place as usize) else {
        return Ok(());
    };
    if !count_down(missing.drivers.as_mut_slice(), *net) {
        return Ok(());
    }
    let Some(readers) = wiring.readers.get(*net as usize) else {
        return Ok(());
    };
    for reader in readers.as_slice() {
        if count_down(missing.inputs.as_mut_slice(), *reader) {
            order.push(*reader)?;
        }
    }
    Ok(())
}

/// One less at a place: whether none is left there.
fn count_down(counts: &mut [usize], place: u32) -> bool {
    match counts.get_mut(place as usize) {
        None => false,
        Some(count) => {
            *count = count.saturating_sub(1);
            *count == 0
        }
    }
}
