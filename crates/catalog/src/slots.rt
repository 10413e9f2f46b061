//! Where the entry under each key stands.

ghost use Rattle.std.specs.Prelude.{◌≡◌, ◌≢◌, ◌<◌, ℕ, None, Some, true, IfOk, IsSome, OnOk, is_some, vec_len};
ghost use Rattle.catalog.specs.kept.Blocks.{Changes, index_in};
ghost use Rattle.catalog.specs.kept.Columns.{AreApart, AreKnown, cell_at};

use crate::blocks::{self, Block};
use crate::key::Key;
use crate::order::{self, Order};
use std::alloc::{AllocError, Global};
use std::mem;

/// The index of each key in the order. Until a key is taken away the keys are the numbers from 0 on, each the index of its
/// own entry. From then on slabs give them, which copies share.
#[derive(Drop)]
pub(crate) struct Slots {
    // So many of the first keys are each the index of its own entry, and so are known without a look.
    straight: Key,
    // The index of each key. There is none while these are all keys.
    blocks: Vec<Block>,
    ghost agree: { (key : ℕ) → key < straight → 0 < vec_len blocks → index_in blocks.items key ≡ Some key },
}

impl Slots {
    ghost use Rattle.catalog.specs.kept.Slots.{slot_at};

    /// No key. It takes no memory.
    pub(crate) fn new(alloc: Global) -> Slots
        ensures { (key : ℕ) → slot_at result key ≡ None }
    {
        Slots {
            straight: 0,
            blocks: Vec::new(alloc),
        }
    }

    /// A copy.
    pub(crate) fn try_clone(&self) -> Result<Slots, AllocError>
        ensures { IfOk result (λ copy. (key : ℕ) → slot_at copy key ≡ slot_at self.now key) }
    {
        let blocks = self.blocks.clone()?;
        Ok(Slots {
            straight: self.straight,
            blocks,
        })
    }

    /// The index of a key.
    pub(crate) fn get(&self, key: Key) -> Option<usize>
        ensures { result ≡ slot_at self.now key }
    {
        if key < self.straight {
            return Some(key as usize);
        }
        blocks::index_of(&self.blocks, key)
    }

    /// Whether a key is known to be the index of its own entry.
    #[inline(always)]
    pub(crate) fn is_straight(&self, key: Key) -> bool
        ensures { result ≡ true → slot_at self.now key ≡ Some key }
    {
        key < self.straight
    }

    /// Puts the index under a key that had none, and gives that key. It fails where memory runs out, or all keys are in use.
    pub(crate) fn insert(&mut self, index: usize) -> Result<Key, AllocError>
        ensures fresh { IfOk result (λ key. slot_at self.old key ≡ None) }
        ensures there { IfOk result (λ key. slot_at self.new key ≡ Some index) }
        ensures others { IfOk result (λ key. (other : ℕ) → other ≢ key → slot_at self.new other ≡ slot_at self.old other) }
    {
        if self.blocks.is_empty() && index == self.straight as usize {
            let key = self.straight;
            self.straight = key.checked_add(1).ok_or(AllocError)?;
            return Ok(key);
        }
        let mut blocks = self.take_blocks()?;
        let key = blocks::insert(&mut blocks, index)?;
        self.blocks = blocks;
        Ok(key)
    }

    /// Takes a key away. It fails where memory runs out.
    pub(crate) fn remove(&mut self, key: Key) -> Result<(), AllocError>
        requires { IsSome (slot_at self.old key) }
        ensures gone { OnOk result (slot_at self.new key ≡ None) }
        ensures others { OnOk result ((other : ℕ) → other ≢ key → slot_at self.new other ≡ slot_at self.old other) }
    {
        let mut blocks = self.take_blocks()?;
        blocks::remove(&mut blocks, key)?;
        self.straight = self.straight.min(key);
        self.blocks = blocks;
        Ok(())
    }

    /// Writes where each key of an order stands. It fails where memory runs out.
    pub(crate) fn number<R: Drop>(&mut self, order: &Order<R>) -> Result<(), AllocError>
        requires apart { AreApart order.now }
        requires known { AreKnown (slot_at self.old) order.now }
        ensures there { OnOk result ((index : ℕ) (e : ℕ × R) → cell_at order.now index ≡ Some e → slot_at self.new e.0 ≡ Some index) }
        ensures same { OnOk result ((key : ℕ) → is_some (slot_at self.new key) ≡ is_some (slot_at self.old key)) }
    {
        let mut blocks = self.take_blocks()?;
        let mut straight = self.straight;
        for index in 0..order.len() {
            if let Some(key) = order::key_at(order, index) {
                straight = set(&mut blocks, straight, key, index)?;
            }
        }
        *self = Slots { straight, blocks };
        Ok(())
    }

    /// The index of each key, also of those that are known without a look. It is to be put back.
    fn take_blocks(&mut self) -> Result<Vec<Block>, AllocError>
        ensures blocks { IfOk result (λ blocks. (key : ℕ) → index_in blocks.items key ≡ slot_at self.old key) }
        ensures straight { self.new.straight ≡ self.old.straight }
    {
        let alloc = *self.blocks.allocator();
        if self.blocks.is_empty() {
            return blocks::first_keys(alloc, self.straight);
        }
        Ok(mem::replace(&mut self.blocks, Vec::new(alloc)))
    }
}

/// Writes the index of a key, and says how many of the first keys are each their own index then, where so many were.
fn set(blocks: &mut Vec<Block>, straight: Key, key: Key, index: usize) -> Result<Key, AllocError>
    requires there { IsSome (index_in blocks.old.items key) }
    requires straight { (other : ℕ) → other < straight → index_in blocks.old.items other ≡ Some other }
    ensures there { OnOk result (Changes blocks.old.items blocks.new.items key (Some index)) }
    ensures straight { IfOk result (λ straight. (other : ℕ) → other < straight → index_in blocks.new.items other ≡ Some other) }
{
    blocks::set(blocks, key, index)?;
    Ok(if index == key as usize {
        straight
    } else {
        straight.min(key)
    })
}
