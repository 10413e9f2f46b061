//! Where nets probably stand.

use crate::net::Net;
use indexmap::IndexMap;
use std::alloc::{AllocError, Global};

/// For each net there may be so many numbers of names between the least and the greatest one, else no places are noted (own).
const SPREAD: usize = 4;

/// Where nets probably stand in their module's order, by the numbers of their names. Whoever takes a hint looks whether the
/// net stands there, so nothing rests on what is noted.
#[derive(Drop)]
pub struct Hints {
    /// The number of the first name.
    first: u32,
    places: Vec<u32>,
}

impl Hints {
    /// Nothing is noted.
    pub fn new(alloc: Global) -> Hints {
        Hints {
            first: 0,
            places: Vec::new(alloc),
        }
    }

    /// The places of these nets, where the numbers of their names lie close together.
    pub fn of(alloc: Global, nets: &IndexMap<u32, Net>) -> Result<Hints, AllocError> {
        let mut first = u32::MAX;
        let mut last = 0;
        for name in nets.keys() {
            first = first.min(*name);
            last = last.max(*name);
        }
        let mut hints = Hints {
            first,
            places: Vec::new(alloc),
        };
        let span = last.saturating_sub(first) as usize;
        if span / SPREAD < nets.len() {
            hints.make_room(span)?;
            for (place, name) in nets.keys().enumerate() {
                hints.note(*name, place)?;
            }
        }
        Ok(hints)
    }

    /// The place that was noted last for a name; another one, or none, where none was.
    #[inline(always)]
    pub fn get(&self, name: u32) -> Option<usize> {
        let at = name.checked_sub(self.first)?;
        let place = self.places.get(at as usize)?;
        Some(*place as usize)
    }

    /// Notes a place for a name, if 32 bits can tell it.
    pub fn note(&mut self, name: u32, place: usize) -> Result<(), AllocError> {
        let Ok(place) = u32::try_from(place) else {
            return Ok(());
        };
        let at = name.saturating_sub(self.first) as usize;
        if self.places.len() <= at {
            self.make_room(at.saturating_mul(2))?;
        }
        if let Some(noted) = self.places.get_mut(at) {
            *noted = place;
        }
        Ok(())
    }

    /// Has places for so many numbers behind the first one.
    fn make_room(&mut self, span: usize) -> Result<(), AllocError> {
        self.places.resize(span.saturating_add(1), 0)?;
        Ok(())
    }
}
