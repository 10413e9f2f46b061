//! Sets of places.

ghost use Rattle.std.specs.Prelude.{◌≡◌, ◌<◌, ◌==◌, ◌||◌, ℕ, true, false, Bool, OnOk};
ghost use Rattle.std.specs.BTreeSet.{Updates, btree_set_len, contains};
ghost use Rattle.std.specs.Ordering.{nat_cmp};

use crate::place_map::{number_of, reach, set_number};
use std::alloc::{AllocError, Global};
use std::collections::BTreeSet;
use std::marker::Model;

/// A set of places, of which contracts see the places in order. Whether a place is in it is found by a mark, without a search;
/// the marks take memory for the pages that have some.
#[derive(Drop)]
pub struct PlaceSet {
    // Page by page, for each place 1 where it is in the set, and else 0.
    marks: Vec<Vec<usize>>,
    places: BTreeSet<usize>,
}

impl Model for PlaceSet {
    ghost use Rattle.std.specs.Prelude.{◌≡◌, ℕ, nat_lt};
    ghost use Rattle.std.specs.BTreeSet.{BTreeSet, contains};
    ghost use Rattle.std.specs.Ordering.{nat_cmp};
    ghost use Rattle.rundiff.specs.kept.PlaceMaps.{number_at};

    ghost Value = { BTreeSet ℕ };

    ghost view = { λ a. a.places };

    ghost invariant = { λ a. (p : ℕ) → nat_lt 0 (number_at a.marks.items p) ≡ contains nat_cmp a.places p };
}

impl PlaceSet {
    /// A set with no place.
    pub fn new(alloc: Global) -> PlaceSet
        ensures { (p : ℕ) → contains nat_cmp result p ≡ false }
    {
        PlaceSet {
            marks: Vec::new(alloc),
            places: BTreeSet::new(alloc),
        }
    }

    /// How many places there are.
    pub fn len(&self) -> usize
        ensures { result ≡ btree_set_len self.now }
    {
        self.places.len()
    }

    /// Whether there is no place.
    pub fn is_empty(&self) -> bool
        ensures none { result ≡ true → (p : ℕ) → contains nat_cmp self.now p ≡ false }
        ensures some { result ≡ false → 0 < btree_set_len self.now }
    {
        self.places.is_empty()
    }

    /// Whether a place is in the set.
    #[inline(always)]
    pub fn contains(&self, place: usize) -> bool
        ensures { result ≡ contains nat_cmp self.now place }
    {
        number_of(&self.marks, place) > 0
    }

    /// Adds a place. It fails where memory runs out.
    pub fn insert(&mut self, place: usize) -> Result<(), AllocError>
        ensures updates { OnOk result (Updates nat_cmp self.old self.new place true) }
    {
        reach(&mut self.marks, place)?;
        self.places.insert(place)?;
        set_number(&mut self.marks, place, 1);
        Ok(())
    }

    /// Takes a place away.
    pub fn remove(&mut self, place: usize)
        ensures updates { Updates nat_cmp self.old self.new place false }
    {
        self.places.remove(&place);
        if number_of(&self.marks, place) > 0 {
            set_number(&mut self.marks, place, 0);
        }
    }

    /// The places, in order.
    pub fn in_order(&self) -> &BTreeSet<usize>
        ensures { result.now ≡ self.now }
    {
        &self.places
    }
}
