//! One branch of a list: its row is copied before a write where it has other owners.

ghost use Rattle.std.specs.Prelude.{◌≡◌, ◌<◌, ◌≤◌, ◌+◌, ◌%◌, ◌∷◌, [], ◌++◌, IfOk, OnErr, OnOk, Some, length, slice_get, replicate, take};
ghost use Rattle.std.specs.Option.{option_copied};
ghost use Rattle.std.specs.Borrow.{sem};
ghost use Rattle.chunked.specs.kept.Chunks.{row_in};
ghost use Rattle.chunked.specs.kept.Lending.{lends_in_branch};

use crate::chunk::CHUNK;
use crate::exact::ExactClone;
use crate::row::Row;
use std::alloc::AllocError;
use std::sync::Arc;

/// How many elements a branch has, but for the last one, which may have fewer (own).
pub(crate) const BRANCH: usize = 1_024;

/// A row of chunks, which lists share as a whole.
pub(crate) type Branch<T> = Arc<Row<T>>;

/// The element at an index.
pub(crate) fn get<T: Drop>(branch: &Branch<T>, index: usize) -> Option<&T>
    ensures { option_copied result ≡ slice_get (row_in branch.now) index }
{
    branch.get(index)
}

/// The element at an index, to be written in place.
pub(crate) fn get_mut<T: ExactClone>(
    branch: &mut Branch<T>,
    index: usize,
) -> Result<&mut T, AllocError>
    requires { index < length (row_in branch.old) }
    ensures* writes_back { sem 𝓛 (lends_in_branch T.row branch.entry index result) }
    ensures value { IfOk result (λ item. slice_get (row_in branch.old) index ≡ Some item.now) }
{
    let item = Arc::make_mut(branch)?.get_mut(index)?;
    Ok(item)
}

/// Adds an element.
pub(crate) fn push<T: ExactClone>(branch: &mut Branch<T>, item: T) -> Result<(), AllocError>
    ensures ok { OnOk result (row_in branch.new ≡ row_in branch.old ++ item ∷ []) }
    ensures err { OnErr result (row_in branch.new ≡ row_in branch.old) }
{
    Arc::make_mut(branch)?.push(item)?;
    Ok(())
}

/// Adds so many copies of an element to the last chunk.
pub(crate) fn pad<T: ExactClone>(
    branch: &mut Branch<T>,
    count: usize,
    item: T,
) -> Result<(), AllocError>
    requires { length (row_in branch.old) % CHUNK + count ≤ CHUNK }
    ensures ok { OnOk result (row_in branch.new ≡ row_in branch.old ++ replicate count item) }
    ensures err { OnErr result (row_in branch.new ≡ row_in branch.old) }
{
    Arc::make_mut(branch)?.pad(count, item)?;
    Ok(())
}

/// Keeps the first elements.
pub(crate) fn truncate<T: ExactClone>(branch: &mut Branch<T>, len: usize) -> Result<(), AllocError>
    ensures ok { OnOk result (row_in branch.new ≡ take len (row_in branch.old)) }
    ensures err { OnErr result (row_in branch.new ≡ row_in branch.old) }
{
    Arc::make_mut(branch)?.truncate(len)?;
    Ok(())
}
