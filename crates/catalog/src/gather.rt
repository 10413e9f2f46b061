//! The names of all records, gathered anew.

ghost use Rattle.std.specs.Prelude.{◌≡◌, ◌≢◌, AllPairs, IfOk};
ghost use Rattle.catalog.specs.kept.Catalog.{names_of};
ghost use Rattle.catalog.specs.kept.Columns.{entries_in};
ghost use Rattle.catalog.specs.kept.Found.{found};
ghost use Rattle.catalog.specs.kept.Table.{AreFound};

use crate::by_name::ByName;
use crate::hasher::NameHasher;
use crate::named::Named;
use crate::names::{Names, write};
use crate::order::{Order, entry_at};
use indexmap::IndexMap;
use std::alloc::{AllocError, Global};
use std::sync::Arc;

/// Gathers the names anew where it is time. Where memory runs out they stay as they are.
pub(crate) fn ready_names<R: Named>(
    alloc: Global,
    hasher: NameHasher,
    names: &mut Names<R>,
    order: &Order<R>,
    len: usize,
) -> Result<(), AllocError>
    requires distinct { AllPairs (λ a b. a ≢ b) (names_of R.name (entries_in order.now)) }
    requires found { AreFound R.name (found R.name names.old) (entries_in order.now) }
    ensures { AreFound R.name (found R.name names.new) (entries_in order.now) }
{
    if names.is_full(len) {
        *names = gathered(alloc, hasher, order)?;
    }
    Ok(())
}

/// The names of all entries.
fn gathered<R: Named>(
    alloc: Global,
    hasher: NameHasher,
    order: &Order<R>,
) -> Result<Names<R>, AllocError>
    requires { AllPairs (λ a b. a ≢ b) (names_of R.name (entries_in order.now)) }
    ensures { IfOk result (λ names. AreFound R.name (found R.name names) (entries_in order.now)) }
{
    let mut map = IndexMap::with_hasher(alloc, hasher);
    for index in 0..order.len() {
        if let Some(entry) = entry_at(order, index) {
            let record = entry.1.clone()?;
            write(&mut map, ByName { record }, entry.0)?;
        }
    }
    Ok(Names {
        base: Some(Arc::new(alloc, map)?),
        added: None,
    })
}
