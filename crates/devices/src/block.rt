//! A fixed room for bytes that wait to go out.
ghost use Rattle.std.specs.Prelude.{◌≡◌, ℕ, ◌+◌, ◌<◌, ◌≤◌, ◌↔◌, List, [], ◌++◌, length, take, IsTrue};

use std::marker::Model;

/// How many bytes a block has room for.
pub(crate) const CAPACITY: usize = 4096;

/// The bytes that wait, at most `CAPACITY` of them. No call takes memory.
#[derive(Drop)]
pub(crate) struct Block {
    bytes: [u8; CAPACITY],
    filled: usize,
}

impl Model for Block {
    ghost use Rattle.std.specs.Prelude.{ℕ, List, ◌≤◌, take};
    ghost use Rattle.devices.specs.declared.block.TheConstants.{CAPACITY};

    ghost Value = { List ℕ };

    ghost view = { λ b. take b.filled b.bytes };

    ghost invariant = { λ b. b.filled ≤ CAPACITY };
}

impl Block {
    pub(crate) fn new() -> Block
        ensures { result ≡ [] }
    {
        Block {
            bytes: [0; CAPACITY],
            filled: 0,
        }
    }

    pub(crate) fn as_slice(&self) -> &[u8]
        ensures { result.now ≡ self.now }
    {
        &self.bytes[..self.filled]
    }

    /// How many more bytes fit.
    pub(crate) fn room(&self) -> usize
        ensures { result + length self.now ≡ CAPACITY }
    {
        CAPACITY - self.filled
    }

    pub(crate) fn add(&mut self, more: &[u8])
        requires { length self.old + length more.now ≤ CAPACITY }
        ensures { self.new ≡ self.old ++ more.now }
    {
        let end = self.filled + more.len();
        self.bytes[self.filled..end].copy_from_slice(more);
        self.filled = end;
    }

    pub(crate) fn clear(&mut self)
        ensures { self.new ≡ [] }
    {
        self.filled = 0;
    }
}
