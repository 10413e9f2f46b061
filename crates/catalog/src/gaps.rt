//! The gaps of an order.

ghost use Rattle.std.specs.Prelude.{◌≡◌, ◌≤◌, ◌<◌, ℕ, [], IfOk, length, slice_index};
ghost use Rattle.catalog.specs.kept.Gaps.{AreCounts, Splits};

use crate::ascending::Ascending;
use std::alloc::{AllocError, Global};

/// Where the gaps of an order stand.
#[derive(Drop)]
pub(crate) struct Gaps {
    // The index of each gap.
    indices: Ascending,
    // How many entries stand before each gap.
    counts: Ascending,
    ghost counted: { AreCounts indices.numbers.items counts.numbers.items },
}

impl Gaps {
    /// No gap. It takes no memory.
    pub(crate) fn new(alloc: Global) -> Gaps
        ensures { result.indices.numbers.items ≡ [] }
    {
        Gaps {
            indices: Ascending::new(alloc),
            counts: Ascending::new(alloc),
        }
    }

    /// These gaps of an order of so many cells.
    pub(crate) fn at(indices: Vec<usize>, len: usize) -> Result<Gaps, AllocError>
        requires { (i : ℕ) → i < length indices.items → i ≤ slice_index indices.items i }
        ensures { IfOk result (λ gaps. gaps.indices.numbers.items ≡ indices.items) }
    {
        let counts = counts(&indices)?;
        let counts = Ascending::marked(counts, len)?;
        let indices = Ascending::marked(indices, len)?;
        Ok(Gaps { indices, counts })
    }

    /// A copy.
    pub(crate) fn try_clone(&self) -> Result<Gaps, AllocError>
        ensures { IfOk result (λ copy. copy.indices.numbers.items ≡ self.now.indices.numbers.items) }
    {
        let indices = self.indices.try_clone()?;
        let counts = self.counts.try_clone()?;
        Ok(Gaps { indices, counts })
    }

    /// How many gaps there are.
    pub(crate) fn len(&self) -> usize
        ensures { result ≡ length self.now.indices.numbers.items }
    {
        self.indices.len()
    }

    /// The index of each gap.
    pub(crate) fn indices(&self) -> &[usize]
        ensures { result.now ≡ self.now.indices.numbers.items }
    {
        self.indices.as_slice()
    }

    /// How many gaps stand up to an index.
    pub(crate) fn count_to(&self, index: usize) -> usize
        ensures { Splits self.now.indices.numbers.items index result }
    {
        self.indices.count(index)
    }

    /// How many gaps stand before the entry before which so many entries stand.
    pub(crate) fn count_before(&self, place: usize) -> usize
        ensures { Splits self.now.counts.numbers.items place result }
    {
        self.counts.count(place)
    }
}

/// How many entries stand before each gap.
fn counts(indices: &Vec<usize>) -> Result<Vec<usize>, AllocError>
    requires { (i : ℕ) → i < length indices.now.items → i ≤ slice_index indices.now.items i }
    ensures { IfOk result (λ counts. AreCounts indices.now.items counts.items) }
{
    let mut counts = Vec::with_capacity(*indices.allocator(), indices.len())?;
    for (place, index) in indices.iter().enumerate() {
        counts.push(*index - place)?;
    }
    Ok(counts)
}
