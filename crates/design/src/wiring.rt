//! Where the key of a gate stands in the lists beside the nets.

ghost use Rattle.std.specs.Prelude.{◌≡◌, ◌≢◌, ◌<◌, ◌≤◌, ◌-◌, ◌==◌, ℕ, true, false, IsSome, IfSome, OnOk, length};
ghost use Rattle.std.specs.List.{slice_index_or};
ghost use Rattle.std.specs.List.Sorted.{IsPartitionPoint};
ghost use Rattle.catalog.specs.Catalog.{record_at};
ghost use Rattle.catalog.specs.kept.Catalog.{keys_of, place_of};
ghost use Rattle.design.specs.kept.Keys.{is_among, is_at};
ghost use Rattle.design.specs.kept.Kept.{stands_before};
ghost use Rattle.design.specs.kept.Lists.{AreChanged, IsInOrder, list_of, with_key_in, without_key};

use crate::by_net::{grow, remove};
use crate::gate::Gate;
use crate::key::{GateKey, NetKey};
use crate::key_list::KeyList;
use crate::terminal::Terminal;
use catalog::Catalog;
use chunked::Chunked;
use std::alloc::{AllocError, Global};

/// Puts the key of a gate into the list of each net among these terminals.
pub fn add_among(
    lists: &mut Chunked<KeyList>,
    gates: &Catalog<Gate>,
    inputs: &[Terminal],
    key: GateKey,
) -> Result<(), AllocError>
    requires there { IsSome (record_at gates.now key) }
    requires ordered { (k : ℕ) → IsInOrder (keys_of gates.now) (list_of lists.old k) }
    ensures { OnOk result (AreChanged (is_among inputs.now) (with_key_in (keys_of gates.now) key) lists.old lists.new) }
{
    gates.lawful();
    for terminal in inputs {
        add_terminal(lists, gates, *terminal, key)?;
    }
    Ok(())
}

/// Puts the key of a gate into the list of the net at a terminal.
fn add_terminal(
    lists: &mut Chunked<KeyList>,
    gates: &Catalog<Gate>,
    terminal: Terminal,
    key: GateKey,
) -> Result<(), AllocError>
    requires there { IsSome (record_at gates.now key) }
    requires ordered { (k : ℕ) → IsInOrder (keys_of gates.now) (list_of lists.old k) }
    ensures { OnOk result (AreChanged (is_at terminal) (with_key_in (keys_of gates.now) key) lists.old lists.new) }
{
    match terminal {
        Terminal::Net(net) => add(lists, gates, net, key),
        Terminal::Constant(_) => Ok(()),
    }
}

/// Puts the key of a gate into the list of a net, in the order of the gates, unless it is there.
pub fn add(
    lists: &mut Chunked<KeyList>,
    gates: &Catalog<Gate>,
    net: NetKey,
    key: GateKey,
) -> Result<(), AllocError>
    requires there { IsSome (record_at gates.now key) }
    requires ordered { IsInOrder (keys_of gates.now) (list_of lists.old net) }
    ensures { OnOk result (AreChanged (λ k. k == net) (with_key_in (keys_of gates.now) key) lists.old lists.new) }
{
    let alloc = lists.allocator();
    grow(lists, net.number as usize)?;
    put(lists.get_mut(net.number as usize)?, alloc, gates, key)?;
    Ok(())
}

/// Puts the key of a gate into a list, in the order of the gates, unless it is there.
fn put(
    list: &mut KeyList,
    alloc: Global,
    gates: &Catalog<Gate>,
    key: GateKey,
) -> Result<(), AllocError>
    requires there { IsSome (record_at gates.now key) }
    requires ordered { IsInOrder (keys_of gates.now) list.old }
    ensures { OnOk result (list.new ≡ with_key_in (keys_of gates.now) key list.old) }
{
    gates.lawful();
    let keys = list.as_slice();
    let at = place_among(keys, gates, key);
    if at < keys.len() && keys[at] == key {
        return Ok(());
    }
    list.insert(alloc, at, key)?;
    Ok(())
}

/// Whether this is the last key of a list.
fn ends_with(list: &[GateKey], key: GateKey) -> bool
    ensures { result ≡ false → 0 < length list.now → (d : ℕ) → slice_index_or list.now (length list.now - 1) d ≢ key }
{
    let count = list.len();
    count > 0 && list[count - 1] == key
}

/// How many keys of a list stand before this one in the order of the gates: all of them, where a gate was just added and the
/// list has its key not yet.
fn place_among(list: &[GateKey], gates: &Catalog<Gate>, key: GateKey) -> usize
    requires there { IsSome (record_at gates.now key) }
    requires ordered { IsInOrder (keys_of gates.now) list.now }
    ensures within { result ≤ length list.now }
    ensures split { IfSome (place_of gates.now key) (λ place. IsPartitionPoint (λ k. stands_before gates.now place k ≡ true) (λ k. stands_before gates.now place k ≡ false) list.now result) }
{
    gates.lawful();
    let Some(place) = gates.place(key.number) else {
        unreachable!();
    };
    if gates.len() - place == 1 && !ends_with(list, key) {
        return list.len();
    }
    list.partition_point(|kept| stands_before(gates, *kept, place))
}

/// Whether a gate stands before this place.
fn stands_before(gates: &Catalog<Gate>, gate: GateKey, place: usize) -> bool
    ensures { result ≡ stands_before gates.now place gate }
{
    match gates.place(gate.number) {
        Some(other) => other < place,
        None => false,
    }
}

/// Takes the key of a gate out of the list of each net among these terminals.
pub fn remove_among(
    lists: &mut Chunked<KeyList>,
    inputs: &[Terminal],
    key: GateKey,
) -> Result<(), AllocError>
    ensures { OnOk result (AreChanged (is_among inputs.now) (λ list. without_key list key) lists.old lists.new) }
{
    for terminal in inputs {
        remove_terminal(lists, *terminal, key)?;
    }
    Ok(())
}

/// Takes the key of a gate out of the list of the net at a terminal.
fn remove_terminal(
    lists: &mut Chunked<KeyList>,
    terminal: Terminal,
    key: GateKey,
) -> Result<(), AllocError>
    ensures { OnOk result (AreChanged (is_at terminal) (λ list. without_key list key) lists.old lists.new) }
{
    match terminal {
        Terminal::Net(net) => remove(lists, net, key),
        Terminal::Constant(_) => Ok(()),
    }
}
