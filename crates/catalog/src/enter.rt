//! A record more.

ghost use Rattle.std.specs.Prelude.{◌≡◌, ◌≢◌, ◌∷◌, [], ◌++◌, ℕ, List, Some, None, IfOk, length, if◌then◌else◌};
ghost use Rattle.catalog.specs.Catalog.{same_name};
ghost use Rattle.catalog.specs.kept.Found.{found};
ghost use Rattle.catalog.specs.kept.Slots.{slot_at};

use crate::by_name::ByName;
use crate::hasher::NameHasher;
use crate::key::Key;
use crate::named::Named;
use crate::names::Names;
use crate::order::Order;
use crate::slots::Slots;
use chunked::Shared;
use std::alloc::{AllocError, Global};

/// Puts a record last, under a key that had none, and the key under its name; that key. Where memory runs out it is not known
/// what is left.
pub(crate) fn enter<R: Named>(
    alloc: Global,
    hasher: NameHasher,
    names: &mut Names<R>,
    slots: &mut Slots,
    order: &mut Order<R>,
    item: Shared<R>,
) -> Result<Key, AllocError>
    ensures fresh { IfOk result (λ key. slot_at slots.old key ≡ None) }
    ensures there { IfOk result (λ key. slot_at slots.new key ≡ Some (length order.old)) }
    ensures others { IfOk result (λ key. (other : ℕ) → other ≢ key → slot_at slots.new other ≡ slot_at slots.old other) }
    ensures last { IfOk result (λ key. order.new ≡ order.old ++ Some (key, item) ∷ []) }
    ensures named { IfOk result (λ key. (name : List ℕ) → found R.name names.new name ≡ (if same_name (R.name item) name then Some key else found R.name names.old name)) }
{
    let key = slots.insert(order.len())?;
    let record = item.clone()?;
    names.insert(alloc, hasher, ByName { record }, key)?;
    order.push((key, item))?;
    Ok(key)
}
