//! How names are hashed.

use std::collections::hash_map::RandomState;
use std::hash::{BuildHasher, DefaultHasher};
use std::random::RandomSource;

/// How names are hashed: SipHash with random keys, so that names from strangers can't be made to collide (own).
#[derive(Clone, Copy, Debug)]
pub struct NameHasher {
    state: Option<RandomState>,
}

impl NameHasher {
    /// A hasher with random keys, or with fixed keys where the system gives none.
    pub fn new(rt: &impl RandomSource) -> NameHasher {
        NameHasher {
            state: RandomState::new(rt).ok(),
        }
    }

    /// A hasher with fixed keys: the same in each run, and open to names that are made to collide.
    pub fn fixed() -> NameHasher {
        NameHasher { state: None }
    }
}

impl BuildHasher for NameHasher {
    type Hasher = DefaultHasher;

    ghost use Rattle.catalog.specs.kept.Hashers.{hasher_for};

    ghost build_hasher = { hasher_for };

    fn build_hasher(&self) -> DefaultHasher {
        match &self.state {
            Some(state) => state.build_hasher(),
            None => DefaultHasher::new(),
        }
    }
}
