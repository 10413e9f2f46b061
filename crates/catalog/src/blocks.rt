//! Keys that slabs give, a slab for each so many keys, and the index of each key.

ghost use Rattle.std.specs.Prelude.{◌≡◌, ◌<◌, ◌+◌, ◌^◌, ℕ, None, Some, if◌then◌else◌, nat_lt, IfOk, IsSome, OnOk, slice_get};
ghost use Rattle.std.specs.Arc.{arc_value};
ghost use Rattle.slab.specs.Slab.{get, ContainsKey, Updates};
ghost use Rattle.catalog.specs.kept.Blocks.{Changes, HasRoom, index_in};

use crate::key::Key;
use slab::Slab;
use std::alloc::{AllocError, Global};
use std::sync::Arc;

/// How many keys a slab gives (own).
pub(crate) const BLOCK: usize = 1_024;

/// The keys of one slab, each with its index. Copies share them.
pub(crate) type Block = Arc<Slab<usize>>;

/// The index of a key.
pub(crate) fn index_of(blocks: &[Block], key: Key) -> Option<usize>
    ensures { result ≡ index_in blocks.now key }
{
    let key = key as usize;
    match blocks.get(key / BLOCK) {
        Some(block) => block.get(key % BLOCK).copied(),
        None => None,
    }
}

/// So many keys, the first ones, each the index of its own entry.
pub(crate) fn first_keys(alloc: Global, count: Key) -> Result<Vec<Block>, AllocError>
    ensures { IfOk result (λ blocks. (key : ℕ) → index_in blocks.items key ≡ (if nat_lt key count then Some key else None)) }
{
    let count = count as usize;
    let mut blocks = Vec::new(alloc);
    for place in 0..count.div_ceil(BLOCK) {
        let start = place * BLOCK;
        let slab = counted(alloc, start, BLOCK.min(count - start))?;
        blocks.push(Arc::new(alloc, slab)?)?;
    }
    Ok(blocks)
}

/// So many keys of one slab, whose indices are counted from the first one.
fn counted(alloc: Global, start: usize, count: usize) -> Result<Slab<usize>, AllocError>
    requires { start + count < 2 ^ 64 }
    ensures { IfOk result (λ slab. (key : ℕ) → get slab key ≡ (if nat_lt key count then Some (start + key) else None)) }
{
    let mut slab = Slab::with_capacity(alloc, count)?;
    for key in 0..count {
        // A slab from which nothing was taken gives the next number.
        if slab.insert_reserved(start + key) != key {
            return Err(AllocError);
        }
    }
    Ok(slab)
}

/// Puts an index under a key that had none; that key. It fails where memory runs out, or all keys are in use.
pub(crate) fn insert(blocks: &mut Vec<Block>, index: usize) -> Result<Key, AllocError>
    ensures fresh { IfOk result (λ key. index_in blocks.old.items key ≡ None) }
    ensures there { IfOk result (λ key. Changes blocks.old.items blocks.new.items key (Some index)) }
{
    let place = place_with_room(blocks)?;
    let key = insert_in(&mut blocks[place], index)?;
    match Key::try_from(place.saturating_mul(BLOCK).saturating_add(key)) {
        Ok(key) => Ok(key),
        Err(_) => Err(AllocError),
    }
}

/// Takes a key away. It fails where memory runs out.
pub(crate) fn remove(blocks: &mut Vec<Block>, key: Key) -> Result<(), AllocError>
    requires { IsSome (index_in blocks.old.items key) }
    ensures { OnOk result (Changes blocks.old.items blocks.new.items key None) }
{
    let key = key as usize;
    remove_in(&mut blocks[key / BLOCK], key % BLOCK)
}

/// Writes the index of a key. It fails where memory runs out.
pub(crate) fn set(blocks: &mut Vec<Block>, key: Key, index: usize) -> Result<(), AllocError>
    requires { IsSome (index_in blocks.old.items key) }
    ensures { OnOk result (Changes blocks.old.items blocks.new.items key (Some index)) }
{
    let key = key as usize;
    set_in(&mut blocks[key / BLOCK], key % BLOCK, index)
}

/// Where a slab is that has a key left: one more where none has.
fn place_with_room(blocks: &mut Vec<Block>) -> Result<usize, AllocError>
    ensures same { OnOk result ((key : ℕ) → index_in blocks.new.items key ≡ index_in blocks.old.items key) }
    ensures room { IfOk result (λ place. HasRoom (slice_get blocks.new.items place)) }
{
    let len = blocks.len();
    for place in 0..len {
        if blocks[place].vacant_key() < BLOCK {
            return Ok(place);
        }
    }
    let alloc = *blocks.allocator();
    blocks.push(Arc::new(alloc, Slab::new(alloc))?)?;
    Ok(len)
}

fn insert_in(block: &mut Block, index: usize) -> Result<usize, AllocError>
    ensures key { IfOk result (λ key. key ≡ (arc_value block.old).vacant_key) }
    ensures fresh { IfOk result (λ key. get (arc_value block.old) key ≡ None) }
    ensures there { IfOk result (λ key. Updates (arc_value block.old) (arc_value block.new) key (Some index)) }
{
    let key = Arc::make_mut(block)?.insert(index)?;
    Ok(key)
}

fn remove_in(block: &mut Block, key: usize) -> Result<(), AllocError>
    requires { ContainsKey (arc_value block.old) key }
    ensures { OnOk result (Updates (arc_value block.old) (arc_value block.new) key None) }
{
    Arc::make_mut(block)?.remove(key);
    Ok(())
}

fn set_in(block: &mut Block, key: usize, index: usize) -> Result<(), AllocError>
    requires { ContainsKey (arc_value block.old) key }
    ensures { OnOk result (Updates (arc_value block.old) (arc_value block.new) key (Some index)) }
{
    let slab = Arc::make_mut(block)?;
    slab[key] = index;
    Ok(())
}
