//! One chunk of a list: it is copied before a write where it has other owners.

ghost use Rattle.std.specs.Prelude.{◌≡◌, ◌<◌, ◌≤◌, ◌+◌, ◌∷◌, [], ◌++◌, IfOk, OnErr, OnOk, length, slice_get, Some, replicate, take};
ghost use Rattle.std.specs.Option.{option_copied};
ghost use Rattle.std.specs.Borrow.{sem};
ghost use Rattle.chunked.specs.kept.Chunks.{items_in};
ghost use Rattle.chunked.specs.kept.Lending.{lends_in_chunk};

use crate::exact::ExactClone;
use std::alloc::{AllocError, Global};
use std::sync::Arc;

/// How many elements a chunk has, but for the last one, which may have fewer (own).
pub(crate) const CHUNK: usize = 32;

/// A chunk, which lists share as a whole.
pub(crate) type Chunk<T> = Arc<Vec<T>>;

/// A chunk without elements. It has room for all that it may get, so that it need not grow, but where it is the first
/// of a row, since many lists stay short.
pub(crate) fn empty<T: Drop>(alloc: Global, is_first: bool) -> Result<Chunk<T>, AllocError>
    ensures { IfOk result (λ chunk. items_in chunk ≡ []) }
{
    let items = if is_first {
        Vec::new(alloc)
    } else {
        Vec::with_capacity(alloc, CHUNK)?
    };
    Ok(Arc::new(alloc, items)?)
}

/// The element at an index.
pub(crate) fn get<T: Drop>(chunk: &Chunk<T>, index: usize) -> Option<&T>
    ensures { option_copied result ≡ slice_get (items_in chunk.now) index }
{
    chunk.get(index)
}

/// The element at an index, to be written in place.
pub(crate) fn get_mut<T: ExactClone>(
    chunk: &mut Chunk<T>,
    index: usize,
) -> Result<&mut T, AllocError>
    requires { index < length (items_in chunk.old) }
    ensures* writes_back { sem 𝓛 (lends_in_chunk T.row chunk.entry index result) }
    ensures value { IfOk result (λ item. slice_get (items_in chunk.old) index ≡ Some item.now) }
{
    let items = Arc::make_mut(chunk)?;
    Ok(&mut items[index])
}

/// Adds an element.
pub(crate) fn push<T: ExactClone>(chunk: &mut Chunk<T>, item: T) -> Result<(), AllocError>
    ensures ok { OnOk result (items_in chunk.new ≡ items_in chunk.old ++ item ∷ []) }
    ensures err { OnErr result (items_in chunk.new ≡ items_in chunk.old) }
{
    Arc::make_mut(chunk)?.push(item)?;
    Ok(())
}

/// Adds so many copies of an element.
pub(crate) fn pad<T: ExactClone>(
    chunk: &mut Chunk<T>,
    count: usize,
    item: T,
) -> Result<(), AllocError>
    requires { length (items_in chunk.old) + count ≤ CHUNK }
    ensures ok { OnOk result (items_in chunk.new ≡ items_in chunk.old ++ replicate count item) }
    ensures err { OnErr result (items_in chunk.new ≡ items_in chunk.old) }
{
    let items = Arc::make_mut(chunk)?;
    let len = items.len() + count;
    items.resize(len, item)?;
    Ok(())
}

/// Keeps the first elements.
pub(crate) fn truncate<T: ExactClone>(chunk: &mut Chunk<T>, len: usize) -> Result<(), AllocError>
    ensures ok { OnOk result (items_in chunk.new ≡ take len (items_in chunk.old)) }
    ensures err { OnErr result (items_in chunk.new ≡ items_in chunk.old) }
{
    Arc::make_mut(chunk)?.truncate(len);
    Ok(())
}
