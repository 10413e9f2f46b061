//! Whether an order of the gates has each of them once, after all that drive what it reads.

ghost use Rattle.std.specs.Prelude.{◌≡◌, ◌&&◌, ◌<◌, ℕ, [], true, false, length, slice_get, IfOk};
ghost use Rattle.std.specs.List.{list_all};
ghost use Rattle.waveform.specs.Timelines.{moments};
ghost use Rattle.design.specs.Keys.{netlist};
ghost use Rattle.scratch.specs.kept.Kept.{IsWiring};
ghost use Rattle.scratch.specs.kept.Places.{has};
ghost use Rattle.ordering.specs.kept.Order.{follow, is_marked, is_order, is_ready_by, may_come_by};

use design::Design;
use scratch::{Input, PackedInput, Wiring};
use std::alloc::{AllocError, Global};

/// The place is marked.
fn is_marked(marks: &[bool], place: u32) -> bool
    ensures { result ≡ is_marked marks.now place }
{
    match marks.get(place as usize) {
        Some(mark) => *mark,
        None => false,
    }
}

/// All of these places are marked.
fn are_marked(marks: &[bool], places: &[u32]) -> bool
    ensures { result ≡ list_all (is_marked marks.now) places.now }
{
    for place in places {
        if !is_marked(marks, *place) {
            return false;
        }
    }
    true
}

/// All gates that drive what an input reads are marked.
fn is_ready(wiring: &Wiring, marks: &[bool], input: Input) -> bool
    ensures { result ≡ is_ready_by wiring.now (is_marked marks.now) input }
{
    match input {
        Input::Fixed(_) => true,
        Input::At(net) => match wiring.drivers.get(net as usize) {
            None => true,
            Some(places) => are_marked(marks, places.as_slice()),
        },
    }
}

/// All gates that drive what these inputs read are marked.
fn are_ready(wiring: &Wiring, marks: &[bool], inputs: &[PackedInput]) -> bool
    ensures { result ≡ list_all (is_ready_by wiring.now (is_marked marks.now)) inputs.now }
{
    for input in inputs {
        if !is_ready(wiring, marks, input.get()) {
            return false;
        }
    }
    true
}

/// The gate at a place may come next: it is not marked, and all that drive what it reads are.
pub fn may_come(wiring: &Wiring, marks: &[bool], place: u32) -> bool
    ensures may { result ≡ may_come_by wiring.now (is_marked marks.now) place }
    ensures within { result ≡ true → place < length wiring.now.cells.items }
{
    if is_marked(marks, place) {
        return false;
    }
    match wiring.cells.get(place as usize) {
        None => false,
        Some(cell) => are_ready(wiring, marks, cell.inputs()),
    }
}

/// All places are marked.
fn are_all_marked(marks: &[bool]) -> bool
    ensures { result ≡ list_all (λ mark. mark) marks.now }
{
    marks.iter().all(|mark| *mark)
}

/// Marks the gates of an order one after another, while each may come next.
fn mark_each(wiring: &Wiring, marks: &mut [bool], order: &[u32]) -> bool
    requires none { (p : ℕ) → is_marked marks.old p ≡ false }
    requires many { length marks.old ≡ length wiring.now.cells.items }
    ensures follow { result ≡ follow (may_come_by wiring.now) [] order.now }
    ensures marked { result ≡ true → (p : ℕ) → is_marked marks.new p ≡ has p order.now }
{
    for place in order {
        if !may_come(wiring, marks, *place) {
            return false;
        }
        marks[*place as usize] = true;
    }
    true
}

/// Whether the gates of an order may come one after another, and all gates are among them.
fn mark_all(wiring: &Wiring, marks: &mut [bool], order: &[u32]) -> bool
    requires none { (p : ℕ) → is_marked marks.old p ≡ false }
    requires many { length marks.old ≡ length wiring.now.cells.items }
    ensures { result ≡ (follow (may_come_by wiring.now) [] order.now && list_all (λ k. has k order.now) (moments (length marks.old))) }
{
    if !mark_each(wiring, marks, order) {
        return false;
    }
    are_all_marked(marks)
}

/// Whether these places are an order of the gates in which each comes once, after all that drive what it reads: one pass over
/// the order and the connections.
pub fn is_ordered(
    alloc: Global,
    design: &Design,
    wiring: &Wiring,
    order: &[u32],
) -> Result<bool, AllocError>
    requires { IsWiring (netlist design.now) wiring.now }
    ensures { IfOk result (λ answer. answer ≡ is_order (netlist design.now) order.now) }
{
    let mut marks = vec![in alloc; false; design.gate_count()]?;
    Ok(mark_all(wiring, marks.as_mut_slice(), order))
}
