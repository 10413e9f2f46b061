//! The records in the order of adding, in which a removal leaves a gap.

ghost use Rattle.std.specs.Prelude.{◌≡◌, ◌<◌, ◌∷◌, [], ◌++◌, ℕ, None, Some, IfOk, IsSome, OnErr, OnOk, length, option_map, slice_get, slice_set, take};
ghost use Rattle.std.specs.Option.{option_copied};
ghost use Rattle.catalog.specs.kept.Columns.{cell_at, entries_in};
ghost use Rattle.catalog.specs.kept.Gaps.{gaps_from};

use crate::gaps::Gaps;
use crate::key::Key;
use chunked::{Chunked, Shared};
use std::alloc::{AllocError, Global};
use std::marker::Model;

/// A key and its record, which copies share.
pub(crate) type Entry<R> = (Key, Shared<R>);

/// Of how many cells one may be a gap (own).
const MIN_CELLS: usize = 32;

/// The entries and the gaps. Contracts see the list of the cells.
#[derive(Drop)]
pub(crate) struct Order<R: Drop> {
    cells: Chunked<Option<Entry<R>>>,
    gaps: Gaps,
}

impl<R: Drop> Model for Order<R> {
    ghost use Rattle.std.specs.Prelude.{◌≡◌, ℕ, List, Option};
    ghost use Rattle.catalog.specs.kept.Gaps.{gaps_from};

    ghost Value = { List (Option (ℕ × R)) };

    ghost view = { λ a. a.cells };

    ghost invariant = { λ a. a.gaps.indices.numbers.items ≡ gaps_from 0 a.cells };
}

impl<R: Drop> Order<R> {
    /// No cell. It takes no memory.
    pub(crate) fn new(alloc: Global) -> Order<R>
        ensures { result ≡ [] }
    {
        Order {
            cells: Chunked::new(alloc),
            gaps: Gaps::new(alloc),
        }
    }

    /// A copy, which shares the cells.
    pub(crate) fn try_clone(&self) -> Result<Order<R>, AllocError>
        ensures { IfOk result (λ copy. copy ≡ self.now) }
    {
        let cells = self.cells.try_clone()?;
        let gaps = self.gaps.try_clone()?;
        Ok(Order { cells, gaps })
    }

    /// How many cells there are.
    pub(crate) fn len(&self) -> usize
        ensures { result ≡ length self.now }
    {
        self.cells.len()
    }

    /// Whether few cells are gaps.
    pub(crate) fn is_dense(&self) -> bool {
        self.gaps.len() <= self.cells.len() / MIN_CELLS
    }

    /// The place of the entry at an index.
    pub(crate) fn place_at(&self, index: usize) -> usize
        requires { IsSome (cell_at self.now index) }
        ensures { result ≡ length (entries_in (take index self.now)) }
    {
        index - self.gaps.count_to(index)
    }

    /// The index of the entry at a place.
    pub(crate) fn index_of(&self, place: usize) -> usize
        requires { place < length (entries_in self.now) }
        ensures { cell_at self.now result ≡ slice_get (entries_in self.now) place }
    {
        // The index is below the count of the cells, so that it fits.
        let _len = self.cells.len();
        place + self.gaps.count_before(place)
    }

    /// Adds an entry.
    pub(crate) fn push(&mut self, entry: Entry<R>) -> Result<(), AllocError>
        ensures { OnOk result (self.new ≡ self.old ++ Some entry ∷ []) }
    {
        self.cells.push(Some(entry))?;
        Ok(())
    }

    /// Puts another entry in the place of one.
    pub(crate) fn set(&mut self, index: usize, entry: Entry<R>) -> Result<(), AllocError>
        requires { IsSome (cell_at self.old index) }
        ensures ok { OnOk result (self.new ≡ slice_set self.old index (Some entry)) }
    {
        self.cells.set(index, Some(entry))?;
        Ok(())
    }

    /// Takes an entry away, which leaves a gap.
    pub(crate) fn clear(&mut self, index: usize) -> Result<(), AllocError>
        requires { IsSome (cell_at self.old index) }
        ensures ok { OnOk result (self.new ≡ slice_set self.old index None) }
    {
        let gaps = self.gaps_with(index)?;
        self.cells.set(index, None)?;
        self.gaps = gaps;
        Ok(())
    }

    /// The gaps without the entry at an index.
    fn gaps_with(&self, index: usize) -> Result<Gaps, AllocError>
        requires { IsSome (cell_at self.now index) }
        ensures { IfOk result (λ gaps. gaps.indices.numbers.items ≡ gaps_from 0 (slice_set self.now index None)) }
    {
        let alloc = self.cells.allocator();
        let mut indices = self.gaps.indices().to_vec(alloc)?;
        indices.insert(self.gaps.count_to(index), index)?;
        Gaps::at(indices, self.cells.len())
    }
}

/// The entry at an index, where there is one.
pub(crate) fn entry_at<R: Drop>(order: &Order<R>, index: usize) -> Option<&Entry<R>>
    ensures { option_copied result ≡ cell_at order.now index }
{
    order.cells.get(index)?.as_ref()
}

/// The key at an index, where there is an entry.
pub(crate) fn key_at<R: Drop>(order: &Order<R>, index: usize) -> Option<Key>
    ensures { result ≡ option_map (λ e. e.0) (cell_at order.now index) }
{
    match entry_at(order, index) {
        Some(entry) => Some(entry.0),
        None => None,
    }
}

/// The record at an index, where there is an entry.
pub(crate) fn item_at<R: Drop>(order: &Order<R>, index: usize) -> Option<&R>
    ensures { option_copied result ≡ option_map (λ e. e.1) (cell_at order.now index) }
{
    match entry_at(order, index) {
        Some(entry) => Some(entry.1.value()),
        None => None,
    }
}
