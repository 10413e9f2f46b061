//! Since which version each net has its wave.

ghost use Rattle.std.specs.Prelude.{◌≡◌, ◌≢◌, ◌≤◌, ◌<◌, ◌⊎◌, ℕ, true, false, OnOk, length, slice_index_or};
ghost use Rattle.edits.specs.kept.Touched.{IsTouched, is_touched};
ghost use Rattle.resim.specs.kept.Changes.{has_changed};
ghost use Rattle.bench.specs.kept.Since.{HasRoom, KeepsName, since_key};

use design::{Design, NetKey};
use edits::Touched;
use resim::Changed;
use std::alloc::{AllocError, Global};

/// Versions of nets, by the numbers of their keys. A commit changes them in place, so that it costs what it changes.
#[derive(Drop)]
pub struct Since {
    /// By the number of a key, the version since which the net of the key has its wave.
    pub versions: Vec<u64>,
    /// That of the keys past the end of the list.
    pub base: u64,
    /// That of each name which no net has.
    pub gone: u64,
}

impl Since {
    /// Each net has its wave since this version.
    pub fn open(alloc: Global, version: u64) -> Since
        ensures keys { (key : ℕ) → since_key result key ≡ version }
        ensures gone { result.gone ≡ version }
    {
        Since {
            versions: Vec::new(alloc),
            base: version,
            gone: version,
        }
    }

    /// The version of the net of a key.
    pub fn version_of(&self, key: NetKey) -> u64
        ensures { result ≡ since_key self.now key }
    {
        self.versions
            .get(key.number())
            .copied()
            .unwrap_or(self.base)
    }

    /// Makes room for what changed. It fails where memory runs out, and each version stays in any case.
    pub fn make_room(&mut self, changed: &Changed) -> Result<(), AllocError>
        ensures same { (key : ℕ) → since_key self.new key ≡ since_key self.old key }
        ensures gone { self.new.gone ≡ self.old.gone }
        ensures room { OnOk result (HasRoom changed.now self.new) }
    {
        match changed {
            Changed::All => Ok(()),
            Changed::Nets(keys) => reach_all(&mut self.versions, keys.as_slice(), self.base),
        }
    }

    /// What changed has its waves since this version, for which there is room; so have the names that no net has, if one is gone.
    pub fn note(&mut self, changed: &Changed, is_gone: bool, version: u64)
        requires room { HasRoom changed.now self.old }
        ensures changed { (key : ℕ) → has_changed changed.now key ≡ true → since_key self.new key ≡ version }
        ensures others { (key : ℕ) → has_changed changed.now key ≡ false → since_key self.new key ≡ since_key self.old key }
        ensures gone { (self.new.gone ≡ version) ⊎ ((self.new.gone ≡ self.old.gone) × (is_gone ≡ false)) }
    {
        match changed {
            Changed::All => *self = Since::open(*self.versions.allocator(), version),
            Changed::Nets(keys) => {
                set_all(&mut self.versions, keys.as_slice(), version);
                if is_gone {
                    self.gone = version;
                }
            }
        }
    }
}

/// Makes the list long enough for these keys, filled with `base`. It fails where memory runs out.
fn reach_all(versions: &mut Vec<u64>, keys: &[NetKey], base: u64) -> Result<(), AllocError>
    ensures same { (key : ℕ) → slice_index_or versions.new.items key base ≡ slice_index_or versions.old.items key base }
    ensures longer { length versions.old.items ≤ length versions.new.items }
    ensures room { OnOk result ((key : ℕ) → is_touched keys.now key ≡ true → key < length versions.new.items) }
{
    for key in keys {
        reach(versions, *key, base)?;
    }
    Ok(())
}

/// Makes the list long enough for a key, filled with `base`. It fails where memory runs out.
fn reach(versions: &mut Vec<u64>, key: NetKey, base: u64) -> Result<(), AllocError>
    ensures same { (k : ℕ) → slice_index_or versions.new.items k base ≡ slice_index_or versions.old.items k base }
    ensures longer { length versions.old.items ≤ length versions.new.items }
    ensures room { OnOk result (key < length versions.new.items) }
{
    let number = key.number();
    if number < versions.len() {
        return Ok(());
    }
    match number.checked_add(1) {
        Some(count) => versions.resize(count, base),
        None => Err(AllocError),
    }
}

/// Gives these keys a version.
fn set_all(versions: &mut Vec<u64>, keys: &[NetKey], version: u64)
    requires { (key : ℕ) → is_touched keys.now key ≡ true → key < length versions.old.items }
    ensures set { (key base : ℕ) → is_touched keys.now key ≡ true → slice_index_or versions.new.items key base ≡ version }
    ensures others { (key base : ℕ) → is_touched keys.now key ≡ false → slice_index_or versions.new.items key base ≡ slice_index_or versions.old.items key base }
{
    for key in keys {
        set_one(versions, *key, version);
    }
}

/// Gives a key a version.
fn set_one(versions: &mut Vec<u64>, key: NetKey, version: u64)
    requires { key < length versions.old.items }
    ensures long { length versions.new.items ≡ length versions.old.items }
    ensures here { (base : ℕ) → slice_index_or versions.new.items key base ≡ version }
    ensures others { (k base : ℕ) → k ≢ key → slice_index_or versions.new.items k base ≡ slice_index_or versions.old.items k base }
{
    versions[key.number()] = version;
}

/// Whether a net of the old design is gone from the new one, or its name is, where edits touched this.
pub fn is_any_gone(old: &Design, new: &Design, touched: &Touched) -> bool
    requires { IsTouched old.now new.now touched.now.nets.items touched.now.gates.items }
    ensures { result ≡ false → (key : ℕ) → KeepsName old.now new.now key }
{
    for key in &touched.nets {
        if is_gone(old, new, *key) {
            return true;
        }
    }
    false
}

/// Whether the old design has a net of this key, and the new one has none of the same key and name.
fn is_gone(old: &Design, new: &Design, key: NetKey) -> bool
    ensures { result ≡ false → KeepsName old.now new.now key }
{
    if old.net_place_of(key).is_none() {
        return false;
    }
    new.net_place_of(key).is_none() || new.name_of(key).as_str() != old.name_of(key).as_str()
}
