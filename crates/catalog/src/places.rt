//! Where entries stand, and how gaps are closed.

ghost use Rattle.std.specs.Prelude.{◌≡◌, ◌∷◌, [], ◌++◌, Some, IfOk, OnOk, filter, is_some, option_map};
ghost use Rattle.catalog.specs.kept.Columns.{ArePlaced, cell_at, entries_in};
ghost use Rattle.catalog.specs.kept.Slots.{slot_at};

use crate::key::Key;
use crate::order::{self, Entry, Order, entry_at};
use crate::slots::Slots;
use std::alloc::{AllocError, Global};

/// The key at an index, where there is an entry.
pub(crate) fn key_at<R: Drop>(slots: &Slots, order: &Order<R>, index: usize) -> Option<Key>
    requires { ArePlaced (slot_at slots.now) order.now }
    ensures { result ≡ option_map (λ e. e.0) (cell_at order.now index) }
{
    match Key::try_from(index) {
        Ok(key) if slots.is_straight(key) => Some(key),
        _ => order::key_at(order, index),
    }
}

/// The order without its gaps, and where each key then stands.
pub(crate) fn close_up<R: Drop>(
    alloc: Global,
    mut slots: Slots,
    order: Order<R>,
) -> Result<(Slots, Order<R>), AllocError>
    requires { ArePlaced (slot_at slots) order }
    ensures entries { IfOk result (λ closed. entries_in closed.1 ≡ entries_in order) }
    ensures placed { IfOk result (λ closed. ArePlaced (slot_at closed.0) closed.1) }
{
    let closed = without_gaps(alloc, &order)?;
    slots.number(&closed)?;
    Ok((slots, closed))
}

/// The entries alone.
fn without_gaps<R: Drop>(alloc: Global, order: &Order<R>) -> Result<Order<R>, AllocError>
    ensures { IfOk result (λ closed. closed ≡ filter (λ cell. is_some cell) order.now) }
{
    let mut closed = Order::new(alloc);
    for index in 0..order.len() {
        if let Some(entry) = entry_at(order, index) {
            push_copy(&mut closed, entry)?;
        }
    }
    Ok(closed)
}

/// Adds a copy of an entry.
fn push_copy<R: Drop>(order: &mut Order<R>, entry: &Entry<R>) -> Result<(), AllocError>
    ensures { OnOk result (order.new ≡ order.old ++ Some entry.now ∷ []) }
{
    let copy = entry.clone()?;
    order.push(copy)
}
