//! The list.

ghost use Rattle.std.specs.Prelude.{◌≡◌, ◌<◌, ℕ, ◌/◌, ◌∷◌, [], ◌++◌, IfOk, OnErr, OnOk, Some, length, slice_get, slice_set, replicate, take};
ghost use Rattle.std.specs.Option.{option_copied};
ghost use Rattle.std.specs.Borrow.{sem};
ghost use Rattle.chunked.specs.kept.Chunks.{AreFull, row_in, rows_of};

use crate::branch::{self, BRANCH, Branch};
use crate::chunk::CHUNK;
use crate::exact::ExactClone;
use crate::row::Row;
use std::alloc::{AllocError, Global};
use std::marker::Model;
use std::sync::Arc;

/// A list in branches, which are rows of chunks. A copy shares the branches, and costs one pointer for each. The first write to
/// what is shared copies the pointers of one row and the elements of one chunk; a write to what nobody else has copies nothing.
/// Contracts see the list.
#[derive(Debug, Drop)]
pub struct Chunked<T: Drop> {
    branches: Vec<Branch<T>>,
    len: usize,
}

impl<T: Drop> Model for Chunked<T> {
    ghost use Rattle.std.specs.Prelude.{◌≡◌, List, length};
    ghost use Rattle.chunked.specs.kept.Chunks.{AreFull, row_in, rows_of};
    ghost use Rattle.chunked.specs.declared.branch.TheConstants.{BRANCH};

    ghost Value = { List T };

    ghost view = { λ a. rows_of a.branches.items };

    ghost invariant = { λ a. AreFull row_in BRANCH a.branches.items × (a.len ≡ length (rows_of a.branches.items)) };
}

impl<T: Drop> Chunked<T> {
    /// No element. It takes no memory.
    pub fn new(alloc: Global) -> Chunked<T>
        ensures { result ≡ [] }
    {
        Chunked {
            branches: Vec::new(alloc),
            len: 0,
        }
    }

    /// Where the list takes its memory.
    pub fn allocator(&self) -> Global {
        *self.branches.allocator()
    }

    /// A copy, which shares the branches. It fails where memory runs out.
    pub fn try_clone(&self) -> Result<Chunked<T>, AllocError>
        ensures { IfOk result (λ copy. copy ≡ self.now) }
    {
        let branches = self.branches.clone()?;
        Ok(Chunked {
            branches,
            len: self.len,
        })
    }

    /// How many elements there are.
    pub fn len(&self) -> usize
        ensures { result ≡ length self.now }
    {
        self.len
    }

    /// The element at an index.
    pub fn get(&self, index: usize) -> Option<&T>
        ensures { option_copied result ≡ slice_get self.now index }
    {
        branch::get(self.branches.get(index / BRANCH)?, index % BRANCH)
    }
}

impl<T: ExactClone> Chunked<T> {
    ghost use Rattle.chunked.specs.kept.Lending.{lends_in_list};

    /// The element at an index, to be written in place. It fails where memory runs out.
    pub fn get_mut(&mut self, index: usize) -> Result<&mut T, AllocError>
        requires { index < length self.old }
        ensures* writes_back { sem 𝓛 (lends_in_list T.row self.entry index result) }
        ensures value { IfOk result (λ item. slice_get self.old index ≡ Some item.now) }
    {
        let item = branch::get_mut(&mut self.branches[index / BRANCH], index % BRANCH)?;
        Ok(item)
    }

    /// Adds an element. It fails where memory runs out.
    pub fn push(&mut self, item: T) -> Result<(), AllocError>
        ensures ok { OnOk result (self.new ≡ self.old ++ item ∷ []) }
        ensures err { OnErr result (self.new ≡ self.old) }
    {
        let more = self.len.checked_add(1).ok_or(AllocError)?;
        let at = self.len / BRANCH;
        make_room(&mut self.branches, at)?;
        branch::push(&mut self.branches[at], item)?;
        self.len = more;
        Ok(())
    }

    /// Adds copies of an element, at least one, until the last chunk is full. It fails where memory runs out.
    pub fn pad(&mut self, item: T) -> Result<(), AllocError>
        ensures ok { OnOk result ((count : ℕ) × 0 < count × (self.new ≡ self.old ++ replicate count item)) }
        ensures err { OnErr result (self.new ≡ self.old) }
    {
        let count = CHUNK - self.len % CHUNK;
        let filled = self.len.checked_add(count).ok_or(AllocError)?;
        let at = self.len / BRANCH;
        make_room(&mut self.branches, at)?;
        branch::pad(&mut self.branches[at], count, item)?;
        self.len = filled;
        Ok(())
    }

    /// Writes an element. It fails where memory runs out.
    pub fn set(&mut self, index: usize, item: T) -> Result<(), AllocError>
        requires { index < length self.old }
        ensures ok { OnOk result (self.new ≡ slice_set self.old index item) }
        ensures err { OnErr result (self.new ≡ self.old) }
    {
        *self.get_mut(index)? = item;
        Ok(())
    }

    /// Keeps the first elements, at most so many. It fails where memory runs out.
    pub fn truncate(&mut self, len: usize) -> Result<(), AllocError>
        ensures ok { OnOk result (self.new ≡ take len self.old) }
        ensures err { OnErr result (self.new ≡ self.old) }
    {
        if len < self.len {
            branch::truncate(&mut self.branches[len / BRANCH], len % BRANCH)?;
            self.branches.truncate(len / BRANCH + 1);
            self.len = len;
        }
        Ok(())
    }
}

/// Adds an empty branch, where all are full.
fn make_room<T: Drop>(branches: &mut Vec<Branch<T>>, at: usize) -> Result<(), AllocError>
    requires full { AreFull row_in BRANCH branches.old.items }
    requires at { at ≡ length (rows_of branches.old.items) / BRANCH }
    ensures full { AreFull row_in BRANCH branches.new.items }
    ensures same { rows_of branches.new.items ≡ rows_of branches.old.items }
    ensures room { OnOk result (at < length branches.new.items) }
{
    if at == branches.len() {
        let alloc = *branches.allocator();
        let branch = Arc::new(alloc, Row::new(alloc))?;
        branches.push(branch)?;
    }
    Ok(())
}
