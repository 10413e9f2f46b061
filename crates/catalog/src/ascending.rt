//! Numbers that are counted up to a limit.

ghost use Rattle.std.specs.Prelude.{◌≡◌, ◌≤◌, ◌<◌, ℕ, [], suc, IfOk, length, slice_get, slice_index};
ghost use Rattle.catalog.specs.kept.Gaps.{AreMarks, Splits};

use std::alloc::{AllocError, Global};

/// How many numbers lie between two marks (own).
pub(crate) const STRIDE: usize = 256;

/// Numbers in ascending order, of which those up to a limit are counted. Between two marks few are looked at.
#[derive(Drop)]
pub(crate) struct Ascending {
    numbers: Vec<usize>,
    // How many are at most 0, how many at most `STRIDE`, at most twice that and so on.
    marks: Vec<usize>,
    ghost marked: { AreMarks numbers.items marks.items },
}

impl Ascending {
    /// No number. It takes no memory.
    pub(crate) fn new(alloc: Global) -> Ascending
        ensures { result.numbers.items ≡ [] }
    {
        Ascending {
            numbers: Vec::new(alloc),
            marks: Vec::new(alloc),
        }
    }

    /// These numbers, with marks up to a limit.
    pub(crate) fn marked(numbers: Vec<usize>, limit: usize) -> Result<Ascending, AllocError>
        ensures { IfOk result (λ ascending. ascending.numbers.items ≡ numbers.items) }
    {
        let marks = marks(&numbers, limit)?;
        Ok(Ascending { numbers, marks })
    }

    /// A copy.
    pub(crate) fn try_clone(&self) -> Result<Ascending, AllocError>
        ensures { IfOk result (λ copy. copy.numbers.items ≡ self.now.numbers.items) }
    {
        let numbers = self.numbers.clone()?;
        let marks = self.marks.clone()?;
        Ok(Ascending { numbers, marks })
    }

    /// How many numbers there are.
    pub(crate) fn len(&self) -> usize
        ensures { result ≡ length self.now.numbers.items }
    {
        self.numbers.len()
    }

    /// The numbers.
    pub(crate) fn as_slice(&self) -> &[usize]
        ensures { result.now ≡ self.now.numbers.items }
    {
        self.numbers.as_slice()
    }

    /// How many numbers are at most the limit.
    pub(crate) fn count(&self, limit: usize) -> usize
        ensures { Splits self.now.numbers.items limit result }
    {
        let mark = limit / STRIDE;
        let low = mark_at(&self.marks, mark).unwrap_or(0);
        let high = mark_at(&self.marks, mark + 1).unwrap_or(self.len());
        search(self.numbers.as_slice(), limit, low, high)
    }
}

/// The mark at a place, where there is one.
#[inline(always)]
fn mark_at(marks: &[usize], place: usize) -> Option<usize>
    ensures { result ≡ slice_get marks.now place }
{
    marks.get(place).copied()
}

/// How many numbers are at most the limit, where that is between two counts.
fn search(numbers: &[usize], limit: usize, low: usize, high: usize) -> usize
    requires within { high ≤ length numbers.now }
    requires rising { low ≤ high }
    requires up_to { (i : ℕ) → suc i ≡ low → slice_index numbers.now i ≤ limit }
    requires past { high < length numbers.now → limit < slice_index numbers.now high }
    ensures splits { Splits numbers.now limit result }
    ensures rising { low ≤ result }
{
    let mut from = low;
    let mut to = high;
    while from < to {
        let middle = from + (to - from) / 2;
        if numbers[middle] <= limit {
            from = middle + 1;
        } else {
            to = middle;
        }
    }
    from
}

/// How many numbers are at most 0, how many at most `STRIDE` and so on, up to a limit.
fn marks(numbers: &Vec<usize>, limit: usize) -> Result<Vec<usize>, AllocError>
    ensures { IfOk result (λ marks. AreMarks numbers.now.items marks.items) }
{
    let mut marks = Vec::new(*numbers.allocator());
    let mut mark = 0;
    for place in 0..limit / STRIDE + 1 {
        mark = search(numbers.as_slice(), place * STRIDE, mark, numbers.len());
        marks.push(mark)?;
    }
    Ok(marks)
}
