//! A row of chunks, which clones of it share.

ghost use Rattle.std.specs.Prelude.{◌≡◌, ◌<◌, ◌≤◌, ◌+◌, ◌%◌, ◌/◌, ◌∷◌, [], ◌++◌, IfOk, OnErr, OnOk, Some, length, slice_get, replicate, take};
ghost use Rattle.std.specs.Option.{option_copied};
ghost use Rattle.std.specs.Borrow.{sem};
ghost use Rattle.chunked.specs.kept.Chunks.{AreFull, items_in, items_of};

use crate::chunk::{self, CHUNK, Chunk};
use crate::exact::ExactClone;
use std::alloc::{AllocError, Global};
use std::marker::Model;

/// A list in chunks. A clone shares the chunks, and costs one pointer for each. Contracts see the list.
#[derive(Debug, Drop)]
pub(crate) struct Row<T: Drop> {
    chunks: Vec<Chunk<T>>,
    len: usize,
}

impl<T: Drop> Model for Row<T> {
    ghost use Rattle.std.specs.Prelude.{◌≡◌, List, length};
    ghost use Rattle.chunked.specs.kept.Chunks.{AreFull, items_in, items_of};
    ghost use Rattle.chunked.specs.declared.chunk.TheConstants.{CHUNK};

    ghost Value = { List T };

    ghost view = { λ a. items_of a.chunks.items };

    ghost invariant = { λ a. AreFull items_in CHUNK a.chunks.items × (a.len ≡ length (items_of a.chunks.items)) };
}

impl<T: Drop> Clone for Row<T> {
    ghost is_clone = { λ old new. new ≡ old };

    fn clone(&self) -> Result<Row<T>, AllocError> {
        let chunks = self.chunks.clone()?;
        Ok(Row {
            chunks,
            len: self.len,
        })
    }
}

impl<T: Drop> Row<T> {
    /// No element. It takes no memory.
    pub(crate) fn new(alloc: Global) -> Row<T>
        ensures { result ≡ [] }
    {
        Row {
            chunks: Vec::new(alloc),
            len: 0,
        }
    }

    /// The element at an index.
    pub(crate) fn get(&self, index: usize) -> Option<&T>
        ensures { option_copied result ≡ slice_get self.now index }
    {
        chunk::get(self.chunks.get(index / CHUNK)?, index % CHUNK)
    }
}

impl<T: ExactClone> Row<T> {
    ghost use Rattle.chunked.specs.kept.Lending.{lends_in_row};

    /// The element at an index, to be written in place.
    pub(crate) fn get_mut(&mut self, index: usize) -> Result<&mut T, AllocError>
        requires { index < length self.old }
        ensures* writes_back { sem 𝓛 (lends_in_row T.row self.entry index result) }
        ensures value { IfOk result (λ item. slice_get self.old index ≡ Some item.now) }
    {
        let item = chunk::get_mut(&mut self.chunks[index / CHUNK], index % CHUNK)?;
        Ok(item)
    }

    /// Adds an element.
    pub(crate) fn push(&mut self, item: T) -> Result<(), AllocError>
        ensures ok { OnOk result (self.new ≡ self.old ++ item ∷ []) }
        ensures err { OnErr result (self.new ≡ self.old) }
    {
        let more = self.len.checked_add(1).ok_or(AllocError)?;
        let at = self.len / CHUNK;
        make_room(&mut self.chunks, at)?;
        chunk::push(&mut self.chunks[at], item)?;
        self.len = more;
        Ok(())
    }

    /// Adds so many copies of an element to the last chunk.
    pub(crate) fn pad(&mut self, count: usize, item: T) -> Result<(), AllocError>
        requires { length self.old % CHUNK + count ≤ CHUNK }
        ensures ok { OnOk result (self.new ≡ self.old ++ replicate count item) }
        ensures err { OnErr result (self.new ≡ self.old) }
    {
        let filled = self.len.checked_add(count).ok_or(AllocError)?;
        let at = self.len / CHUNK;
        make_room(&mut self.chunks, at)?;
        chunk::pad(&mut self.chunks[at], count, item)?;
        self.len = filled;
        Ok(())
    }

    /// Keeps the first elements.
    pub(crate) fn truncate(&mut self, len: usize) -> Result<(), AllocError>
        ensures ok { OnOk result (self.new ≡ take len self.old) }
        ensures err { OnErr result (self.new ≡ self.old) }
    {
        if len < self.len {
            chunk::truncate(&mut self.chunks[len / CHUNK], len % CHUNK)?;
            self.chunks.truncate(len / CHUNK + 1);
            self.len = len;
        }
        Ok(())
    }
}

/// Adds an empty chunk, where all are full.
fn make_room<T: Drop>(chunks: &mut Vec<Chunk<T>>, at: usize) -> Result<(), AllocError>
    requires full { AreFull items_in CHUNK chunks.old.items }
    requires at { at ≡ length (items_of chunks.old.items) / CHUNK }
    ensures full { AreFull items_in CHUNK chunks.new.items }
    ensures same { items_of chunks.new.items ≡ items_of chunks.old.items }
    ensures room { OnOk result (at < length chunks.new.items) }
{
    if at == chunks.len() {
        let alloc = *chunks.allocator();
        let chunk = chunk::empty(alloc, at == 0)?;
        chunks.push(chunk)?;
    }
    Ok(())
}
