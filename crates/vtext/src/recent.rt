//! Under which numbers names were found lately.

ghost use Rattle.std.specs.Prelude.{◌≡◌, ◌↔◌, List, ℕ, [], IfSome, IsTrue, Some, true};
ghost use Rattle.catalog.specs.kept.Spellings.{is_short};
ghost use Rattle.vtext.specs.Names.{number_of};
ghost use Rattle.vtext.specs.kept.Recents.{AreRight, IsOf, IsRight};

use catalog::spelling::{first_four, is_short, last_four};
use std::alloc::{AllocError, Global};

/// How many places there are at first, a power of two (own).
const FEWEST: usize = 256;
/// How many there are at most: as many as there are when it has grown five times (own).
const MOST: usize = 262_144;
/// How many take the part of one where there have to be more, a power of two (own).
const GROWTH: usize = 4;

/// The number of a name, and of a short name its bytes, so that it is known without a look at its text.
#[derive(Clone, Copy)]
pub struct Noted {
    /// The first four bytes of a short name as a number.
    first: u32,
    /// The last four.
    last: u32,
    /// How many bytes a short name has; 0 where the name is not short, or there is none.
    length: u32,
    pub number: u32,
}

impl Noted {
    /// No name.
    const NONE: Noted = Noted {
        first: 0,
        last: 0,
        length: 0,
        number: 0,
    };

    /// A name with its number.
    pub fn new(name: &[u8], number: u32) -> Noted
        ensures { (names : List (List ℕ)) → number_of names name.now ≡ Some number → IsRight names result }
    {
        if !is_short(name) {
            return Noted {
                number,
                ..Noted::NONE
            };
        }
        Noted {
            first: first_four(name),
            last: last_four(name),
            length: name.len() as u32,
            number,
        }
    }

    /// Whether this short name is noted.
    #[inline(always)]
    pub fn is_of(self, name: &[u8]) -> bool
        requires { is_short name.now ≡ true }
        ensures { IsTrue result ↔ IsOf self name.now }
    {
        self.length as usize == name.len()
            && self.first == first_four(name)
            && self.last == last_four(name)
    }
}

/// The numbers under which names were found lately, each at a place that the name's fingerprint tells: those of `n1`, `n2`
/// and so on stand one behind another, since they mostly come together. Names may share a place: the last one has it.
/// Whoever takes the number of a name that is not short looks whether the name has it.
#[derive(Drop)]
pub struct Recent {
    entries: Vec<Noted>,
}

impl Recent {
    /// Nothing is noted.
    pub fn new(alloc: Global) -> Recent
        ensures { result.entries.items ≡ [] }
    {
        Recent {
            entries: Vec::new(alloc),
        }
    }

    /// What was noted last for a fingerprint; something else, or nothing, where nothing was.
    #[inline(always)]
    pub fn get(&self, fingerprint: u64) -> Option<Noted>
        ensures { (names : List (List ℕ)) → AreRight names self.now → IfSome result (IsRight names) }
    {
        self.entries.get(self.place(fingerprint)).copied()
    }

    /// Notes a name for its fingerprint.
    #[inline(always)]
    pub fn note(&mut self, fingerprint: u64, noted: Noted)
        ensures { (names : List (List ℕ)) → AreRight names self.old → IsRight names noted → AreRight names self.new }
    {
        let place = self.place(fingerprint);
        if let Some(entry) = self.entries.get_mut(place) {
            *entry = noted;
        }
    }

    /// Has twice as many places as there are names, or the most.
    #[inline(always)]
    pub fn make_room(&mut self, names: usize) -> Result<(), AllocError>
        ensures { (names : List (List ℕ)) → AreRight names self.old → AreRight names self.new }
    {
        let places = self.entries.len();
        if names < places / 2 || MOST <= places {
            return Ok(());
        }
        self.grow()
    }

    /// Has more places: those that take the part of one have its name.
    fn grow(&mut self) -> Result<(), AllocError>
        ensures { (names : List (List ℕ)) → AreRight names self.old → AreRight names self.new }
    {
        let places = self.entries.len().saturating_mul(GROWTH).max(FEWEST);
        let mut entries = Vec::with_capacity(*self.entries.allocator(), places)?;
        'copies: for _ in 0..GROWTH {
            entries.extend_from_slice(self.entries.as_slice())?;
        }
        entries.resize(places, Noted::NONE)?;
        self.entries = entries;
        Ok(())
    }

    /// The place of a fingerprint, told by its lower bits.
    #[inline(always)]
    fn place(&self, fingerprint: u64) -> usize {
        fingerprint as usize & self.entries.len().wrapping_sub(1)
    }
}
