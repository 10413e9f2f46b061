//! Records by name and by key, as one list that is walked: the reference implementation, for tests: its contract is that of `Catalog`.

ghost use Rattle.std.specs.Prelude.{◌≡◌, ◌<◌, ◌∷◌, [], ◌++◌, length, map, slice_get, option_map, IfOk, IfSome, IsSome, ◌==◌};
ghost use Rattle.std.specs.List.{position_from};
ghost use Rattle.std.specs.Option.{option_copied};
ghost use Rattle.catalog.specs.Catalog.{record_at, records_of, same_name};
ghost use Rattle.catalog.specs.kept.Catalog.{AreDistinct, key_named, keys_of, named, place_of, with_record, without_key};

use crate::hasher::NameHasher;
use crate::key::Key;
use crate::named::Named;
use chunked::Shared;
use std::alloc::{AllocError, Global};
use std::fmt;
use std::marker::Model;

/// A catalog as one list.
#[derive(Drop)]
pub struct PlainCatalog<R: Named> {
    entries: Vec<(Key, Shared<R>)>,
    next_key: Key,
}

impl<R: Named> Model for PlainCatalog<R> {
    ghost use Rattle.std.specs.Prelude.{ℕ, List};
    ghost use Rattle.catalog.specs.kept.Kept.{AreKept};

    ghost Value = { List (ℕ × R) };

    ghost view = { λ a. a.entries.items };

    ghost invariant = { λ a. AreKept R.name a.entries.items a.next_key };
}

impl<R: Named> PlainCatalog<R> {
    /// No record.
    pub fn new(alloc: Global, hasher: NameHasher) -> PlainCatalog<R>
        ensures { result ≡ [] }
    {
        let _hasher = hasher;
        PlainCatalog {
            entries: Vec::new(alloc),
            next_key: 0,
        }
    }

    /// A copy, which shares the records. It fails where memory runs out.
    pub fn try_clone(&self) -> Result<PlainCatalog<R>, AllocError>
        ensures { IfOk result (λ copy. copy ≡ self.now) }
    {
        let entries = self.entries.clone()?;
        Ok(PlainCatalog {
            entries,
            next_key: self.next_key,
        })
    }

    /// How many records there are.
    pub fn len(&self) -> usize
        ensures { result ≡ length self.now }
    {
        self.entries.len()
    }

    /// The key of the record of a name.
    pub fn key(&self, name: &str) -> Option<Key>
        ensures key { result ≡ key_named R.name self.now name.now }
        ensures there { IfSome result (λ key. record_at self.now key ≡ option_map (λ e. e.1) (named R.name self.now name.now)) }
    {
        match place_named(self.entries.as_slice(), name) {
            Some(place) => Some(self.entries[place].0),
            None => None,
        }
    }

    /// The record under a key.
    pub fn get(&self, key: Key) -> Option<&R>
        ensures { option_copied result ≡ record_at self.now key }
    {
        match place_under(self.entries.as_slice(), key) {
            Some(place) => Some(self.entries[place].1.value()),
            None => None,
        }
    }

    /// The place of the record under a key, in the order of the records.
    pub fn place(&self, key: Key) -> Option<usize>
        ensures place { result ≡ place_of self.now key }
        ensures within { IfSome result (λ place. place < length self.now) }
        ensures there { IfSome result (λ place. slice_get (records_of self.now) place ≡ record_at self.now key) }
    {
        place_under(self.entries.as_slice(), key)
    }

    /// The key of the record at a place.
    pub fn key_at(&self, place: usize) -> Key
        requires { place < length self.now }
        ensures key { slice_get (keys_of self.now) place ≡ Some result }
        ensures place { place_of self.now result ≡ Some place }
        ensures there { record_at self.now result ≡ slice_get (records_of self.now) place }
    {
        self.entries[place].0
    }

    /// The record at a place.
    pub fn record_at_place(&self, place: usize) -> &R
        requires { place < length self.now }
        ensures { slice_get (records_of self.now) place ≡ Some result.now }
    {
        self.entries[place].1.value()
    }

    /// Adds a record, which goes last, and gives its key. It fails where memory runs out, or all keys are in use.
    pub fn push(self, item: R) -> Result<(PlainCatalog<R>, Key), AllocError>
        requires { key_named R.name self (R.name item) ≡ None }
        ensures entries { IfOk result (λ added. added.0 ≡ self ++ (added.1, item) ∷ []) }
        ensures fresh { IfOk result (λ added. record_at self added.1 ≡ None) }
    {
        let PlainCatalog {
            mut entries,
            next_key: key,
        } = self;
        let next_key = key.checked_add(1).ok_or(AllocError)?;
        let item = Shared::new(*entries.allocator(), item)?;
        entries.push((key, item))?;
        Ok((PlainCatalog { entries, next_key }, key))
    }

    /// Puts a record under the key of one with the same name. It fails where memory runs out.
    pub fn replace(self, key: Key, item: R) -> Result<PlainCatalog<R>, AllocError>
        requires there { IsSome (record_at self key) }
        requires name { IfSome (record_at self key) (λ old. R.name item ≡ R.name old) }
        ensures { IfOk result (λ catalog. catalog ≡ with_record self key item) }
    {
        let PlainCatalog {
            mut entries,
            next_key,
        } = self;
        let item = Shared::new(*entries.allocator(), item)?;
        match place_under(entries.as_slice(), key) {
            Some(place) => entries[place].1 = item,
            None => unreachable!(),
        }
        Ok(PlainCatalog { entries, next_key })
    }

    /// Takes the record under a key away. It fails where memory runs out.
    pub fn remove(self, key: Key) -> Result<PlainCatalog<R>, AllocError>
        requires { IsSome (record_at self key) }
        ensures { IfOk result (λ catalog. catalog ≡ without_key self key) }
    {
        let PlainCatalog {
            mut entries,
            next_key,
        } = self;
        match place_under(entries.as_slice(), key) {
            Some(place) => drop(entries.remove(place)),
            None => unreachable!(),
        }
        Ok(PlainCatalog { entries, next_key })
    }

    /// The same records. It never fails.
    pub fn close_up(self) -> Result<PlainCatalog<R>, AllocError>
        ensures { IfOk result (λ catalog. catalog ≡ self) }
    {
        Ok(self)
    }

    /// The law of every catalog; nothing runs.
    pub fn lawful(&self)
        ensures { AreDistinct R.name self.now }
    {
        let _entries = &self.entries;
    }
}

impl<R: Named> fmt::Debug for PlainCatalog<R> {
    fn fmt<W: fmt::Write>(&self, f: &mut fmt::Formatter<W>) -> fmt::Result {
        f.debug_struct("PlainCatalog")
            .field("len", &self.len())
            .finish_non_exhaustive()
    }
}

fn place_named<R: Named>(entries: &[(Key, Shared<R>)], name: &str) -> Option<usize>
    ensures { result ≡ position_from (λ e. same_name (R.name e.1) name.now) 0 entries.now }
{
    entries
        .iter()
        .position(|entry| entry.1.value().name() == name)
}

fn place_under<R: Named>(entries: &[(Key, Shared<R>)], key: Key) -> Option<usize>
    ensures { result ≡ position_from (λ e. e.0 == key) 0 entries.now }
{
    entries.iter().position(|entry| entry.0 == key)
}
