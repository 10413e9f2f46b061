//! Room for differences.

ghost use Rattle.std.specs.Prelude.{◌≡◌, ◌≤◌, ◌<◌, [], ◌++◌, AllPairs, length};
ghost use Rattle.std.specs.List.Sorted.{IsPermutation};
ghost use Rattle.std.specs.Vec.{vec_capacity};
ghost use Rattle.differences.specs.kept.Found.{difference_of};
ghost use Rattle.differences.specs.kept.Order.{GoesFirst};
ghost use Rattle.differences.specs.declared.room.TheConstants.{MOST};

use design::MAX_NETS;
use std::alloc::{AllocError, Global};

/// How many differences two designs can have: all nets of both.
pub(crate) const MOST: usize = 2 * MAX_NETS;

/// A net that differs, and from which moment on, in time units. The nets of the asked design have their places as numbers, and
/// those of the other one have the numbers behind these.
#[derive(Clone, Copy, Debug, PartialEq, Eq, PartialOrd, Ord)]
pub(crate) struct Difference {
    pub(crate) moment: u64,
    pub(crate) number: usize,
}

/// Room for the differences of any two designs. It takes its memory when it is opened, some 2 MiB that stay untouched until
/// there are so many differences.
#[derive(Drop)]
pub struct Room {
    pub(crate) found: Vec<Difference>,
    ghost enough: { MOST ≤ vec_capacity found },
}

impl Room {
    /// An empty room. It fails where memory runs out.
    pub fn open(alloc: Global) -> Result<Room, AllocError> {
        let found = Vec::with_capacity(alloc, MOST)?;
        Ok(Room { found })
    }

    /// Takes all differences away.
    pub(crate) fn clear(&mut self)
        ensures { self.new.found.items ≡ [] }
    {
        self.found.clear();
    }

    /// Adds the difference of the net of a number, if it has a first moment, behind the others.
    pub(crate) fn add(&mut self, number: usize, moment: Option<u64>)
        requires { length self.old.found.items < MOST }
        ensures { self.new.found.items ≡ self.old.found.items ++ difference_of number moment }
    {
        if let Some(moment) = moment {
            self.found.push_reserved(Difference { moment, number });
        }
    }

    /// Puts them in order of moments, and those of one moment in order of numbers.
    pub(crate) fn sort(&mut self)
        ensures same { IsPermutation self.old.found.items self.new.found.items }
        ensures order { AllPairs GoesFirst self.new.found.items }
    {
        self.found.sort_unstable();
    }
}
