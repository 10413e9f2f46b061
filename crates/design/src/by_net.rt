//! A list of gate keys for each net.

ghost use Rattle.std.specs.Prelude.{◌≡◌, ◌<◌, ◌==◌, ℕ, OnOk, length};
ghost use Rattle.design.specs.kept.Lists.{AreChanged, list_of, without_key};

use crate::key::{GateKey, NetKey};
use crate::key_list::KeyList;
use chunked::Chunked;
use std::alloc::AllocError;

/// The list of a net, empty where none is kept.
pub fn list_at(lists: &Chunked<KeyList>, net: NetKey) -> &[GateKey]
    ensures { result.now ≡ list_of lists.now net }
{
    match lists.get(net.number as usize) {
        Some(list) => list.as_slice(),
        None => &[],
    }
}

/// Takes a key out of the list of a net.
pub fn remove(lists: &mut Chunked<KeyList>, net: NetKey, key: GateKey) -> Result<(), AllocError>
    ensures { OnOk result (AreChanged (λ k. k == net) (λ list. without_key list key) lists.old lists.new) }
{
    grow(lists, net.number as usize)?;
    lists.get_mut(net.number as usize)?.remove(key)?;
    Ok(())
}

/// Adds empty lists until the net has one.
#[inline(always)]
pub fn grow(lists: &mut Chunked<KeyList>, net: usize) -> Result<(), AllocError>
    ensures there { OnOk result (net < length lists.new) }
    ensures same { OnOk result ((k : ℕ) → list_of lists.new k ≡ list_of lists.old k) }
{
    while lists.len() <= net {
        lists.pad(KeyList::new())?;
    }
    Ok(())
}
