//! A few gate keys, which stand in the value itself.

ghost use Rattle.std.specs.Prelude.{◌≡◌, ◌≤◌, ◌<◌, [], ◌∷◌, ◌++◌, insert, length};
ghost use Rattle.design.specs.kept.Lists.{without_key};

use crate::key::GateKey;
use std::alloc::AllocError;
use std::marker::Model;
use std::mem;

/// How many keys may stand in the value (own).
pub(crate) const FEW: usize = 4;

/// At most `FEW` gate keys. Contracts see the list.
#[derive(Debug, Drop)]
pub struct Few {
    keys: [GateKey; FEW],
    count: u32,
}

impl Model for Few {
    ghost use Rattle.std.specs.Prelude.{ℕ, ◌≡◌, ◌≤◌, List, length, take};
    ghost use Rattle.design.specs.declared.few.TheConstants.{FEW};

    ghost Value = { List ℕ };

    ghost view = { λ a. take a.count a.keys };

    ghost invariant = { λ a. a.count ≤ FEW };
}

impl Few {
    /// No key.
    pub fn new() -> Few
        ensures { result ≡ [] }
    {
        Few {
            keys: [GateKey { number: 0 }; FEW],
            count: 0,
        }
    }

    /// The keys.
    pub fn as_slice(&self) -> &[GateKey]
        ensures keys { result.now ≡ self.now }
        ensures within { length result.now ≤ FEW }
    {
        &self.keys[..self.count as usize]
    }

    /// Puts a key before that at `at`.
    pub fn insert(&mut self, at: usize, key: GateKey)
        requires at { at ≤ length self.old }
        requires room { length self.old < FEW }
        ensures { self.new ≡ insert self.old at key }
    {
        self.keys.copy_within(at..self.count as usize, at + 1);
        self.keys[at] = key;
        self.count += 1;
    }

    /// Takes a key out.
    pub fn remove(&mut self, key: GateKey)
        ensures { self.new ≡ without_key self.old key }
    {
        let former = mem::replace(self, Few::new());
        for kept in former.as_slice() {
            if *kept != key {
                self.push(*kept);
            }
        }
    }

    fn push(&mut self, key: GateKey)
        requires { length self.old < FEW }
        ensures { self.new ≡ self.old ++ key ∷ [] }
    {
        self.keys[self.count as usize] = key;
        self.count += 1;
    }
}

impl Clone for Few {
    ghost use Rattle.std.specs.Prelude.{◌≡◌};

    ghost is_clone = { λ old new. new ≡ old };

    fn clone(&self) -> Result<Few, AllocError> {
        Ok(Few {
            keys: self.keys,
            count: self.count,
        })
    }
}
