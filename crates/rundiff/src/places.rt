//! Sets of places.

ghost use Rattle.std.specs.Prelude.{◌≡◌, IfOk};
ghost use Rattle.std.specs.BTreeSet.{contains};
ghost use Rattle.std.specs.Ordering.{nat_cmp};
ghost use Rattle.rundiff.specs.kept.Fronts.{ArePlaces};

use crate::place_set::PlaceSet;
use std::alloc::{AllocError, Global};
use std::collections::BTreeSet;

/// The places of a set, in order.
pub fn places_of(alloc: Global, set: &PlaceSet) -> Result<Vec<usize>, AllocError>
    ensures { IfOk result (λ places. ArePlaces places.items (contains nat_cmp set.now)) }
{
    list_of(alloc, set.in_order())
}

/// The keys of a set, in order.
fn list_of(alloc: Global, set: &BTreeSet<usize>) -> Result<Vec<usize>, AllocError>
    ensures { IfOk result (λ places. ArePlaces places.items (contains nat_cmp set.now)) }
{
    let mut places = Vec::with_capacity(alloc, set.len())?;
    for place in set {
        places.push(*place)?;
    }
    Ok(places)
}
