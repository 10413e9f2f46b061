//! Records by name and by key.

ghost use Rattle.std.specs.Prelude.{◌≡◌, ◌<◌, ◌∷◌, [], ◌++◌, length, map, slice_get, option_map, IfOk, IfSome, IsSome};
ghost use Rattle.std.specs.Option.{option_copied};
ghost use Rattle.catalog.specs.Catalog.{record_at, records_of};
ghost use Rattle.catalog.specs.kept.Catalog.{AreDistinct, key_named, keys_of, named, place_of, with_record, without_key};

use crate::enter::enter;
use crate::gather::ready_names;
use crate::hasher::NameHasher;
use crate::key::Key;
use crate::named::Named;
use crate::names::Names;
use crate::order::{Order, item_at};
use crate::places::{close_up, key_at};
use crate::slots::Slots;
use chunked::Shared;
use std::alloc::{AllocError, Global};
use std::fmt;
use std::marker::Model;

/// Records, each under a key of its own and with a name that no other has, in the order in which they were added
/// (own). Contracts see the list of the records with their keys. A copy shares all that is as large as the catalog; of
/// what is then changed a chunk is copied first, or the names that were added last, and no record. A look-up takes one
/// step and no memory. A removal leaves a gap and moves no record; while there are gaps, a place is found in a few steps.
/// The key of a record that was removed may come to be that of another. Of the records of one name that were replaced or
/// removed, one may stay in memory until the names are gathered anew.
#[derive(Drop)]
pub struct Catalog<R: Named> {
    alloc: Global,
    hasher: NameHasher,
    names: Names<R>,
    slots: Slots,
    order: Order<R>,
    len: usize,
}

impl<R: Named> Model for Catalog<R> {
    ghost use Rattle.std.specs.Prelude.{ℕ, List};

    ghost Value = { List (ℕ × R) };

    ghost use Rattle.catalog.specs.kept.Columns.{entries_in};
    ghost use Rattle.catalog.specs.kept.Slots.{slot_at};
    ghost use Rattle.catalog.specs.kept.Found.{found};
    ghost use Rattle.catalog.specs.kept.Table.{IsTable};

    ghost view = { λ a. entries_in a.order };

    ghost invariant = { λ a. IsTable R.name (found R.name a.names) (slot_at a.slots) a.order a.len };
}

impl<R: Named> Catalog<R> {
    /// No record. It takes no memory.
    pub fn new(alloc: Global, hasher: NameHasher) -> Catalog<R>
        ensures { result ≡ [] }
    {
        Catalog {
            alloc,
            hasher,
            names: Names::empty(),
            slots: Slots::new(alloc),
            order: Order::new(alloc),
            len: 0,
        }
    }

    /// A copy, which shares all with this one until one of them is changed. It fails where memory runs out.
    pub fn try_clone(&self) -> Result<Catalog<R>, AllocError>
        ensures { IfOk result (λ copy. copy ≡ self.now) }
    {
        let names = self.names.try_clone()?;
        let slots = self.slots.try_clone()?;
        let order = self.order.try_clone()?;
        Ok(Catalog {
            names,
            slots,
            order,
            ..*self
        })
    }

    /// How many records there are.
    pub fn len(&self) -> usize
        ensures { result ≡ length self.now }
    {
        self.len
    }

    /// The key of the record of a name.
    pub fn key(&self, name: &str) -> Option<Key>
        ensures key { result ≡ key_named R.name self.now name.now }
        ensures there { IfSome result (λ key. record_at self.now key ≡ option_map (λ e. e.1) (named R.name self.now name.now)) }
    {
        match self.names.get(name) {
            Some(key) => match self.get(key) {
                Some(item) => { if item.name() == name { Some(key) } else { None } }
                None => None,
            },
            None => None,
        }
    }

    /// The record under a key.
    pub fn get(&self, key: Key) -> Option<&R>
        ensures { option_copied result ≡ record_at self.now key }
    {
        match self.slots.get(key) {
            Some(index) => item_at(&self.order, index),
            None => None,
        }
    }

    /// The place of the record under a key, in the order of the records.
    pub fn place(&self, key: Key) -> Option<usize>
        ensures place { result ≡ place_of self.now key }
        ensures within { IfSome result (λ place. place < length self.now) }
        ensures there { IfSome result (λ place. slice_get (records_of self.now) place ≡ record_at self.now key) }
    {
        match self.slots.get(key) {
            Some(index) => Some(self.order.place_at(index)),
            None => None,
        }
    }

    /// The key of the record at a place.
    pub fn key_at(&self, place: usize) -> Key
        requires { place < length self.now }
        ensures key { slice_get (keys_of self.now) place ≡ Some result }
        ensures place { place_of self.now result ≡ Some place }
        ensures there { record_at self.now result ≡ slice_get (records_of self.now) place }
    {
        let index = self.order.index_of(place);
        match key_at(&self.slots, &self.order, index) {
            Some(key) => key,
            None => unreachable!(),
        }
    }

    /// The record at a place.
    pub fn record_at_place(&self, place: usize) -> &R
        requires { place < length self.now }
        ensures { slice_get (records_of self.now) place ≡ Some result.now }
    {
        let index = self.order.index_of(place);
        match item_at(&self.order, index) {
            Some(item) => item,
            None => unreachable!(),
        }
    }

    /// Adds a record, which goes last, and gives its key. It fails where memory runs out, or all keys are in use; then
    /// there may be no record any more.
    pub fn push(&mut self, item: R) -> Result<Key, AllocError>
        requires { key_named R.name self.old (R.name item) ≡ None }
        ensures entries { IfOk result (λ key. self.new ≡ self.old ++ (key, item) ∷ []) }
        ensures fresh { IfOk result (λ key. record_at self.old key ≡ None) }
    {
        let more = self.len.checked_add(1).ok_or(AllocError)?;
        let item = Shared::new(self.alloc, item)?;
        ready_names(
            self.alloc,
            self.hasher,
            &mut self.names,
            &self.order,
            self.len,
        )?;
        let entered = enter(
            self.alloc,
            self.hasher,
            &mut self.names,
            &mut self.slots,
            &mut self.order,
            item,
        );
        match entered {
            Ok(key) => {
                self.len = more;
                Ok(key)
            }
            Err(error) => {
                *self = Catalog::new(self.alloc, self.hasher);
                Err(error)
            }
        }
    }

    /// Takes all records away.
    pub fn clear(&mut self)
        ensures { self.new ≡ [] }
    {
        *self = Catalog::new(self.alloc, self.hasher);
    }

    /// Puts a record under the key of one with the same name. It fails where memory runs out.
    pub fn replace(self, key: Key, item: R) -> Result<Catalog<R>, AllocError>
        requires there { IsSome (record_at self key) }
        requires name { IfSome (record_at self key) (λ old. R.name item ≡ R.name old) }
        ensures { IfOk result (λ catalog. catalog ≡ with_record self key item) }
    {
        let Some(index) = self.slots.get(key) else {
            unreachable!()
        };
        let item = Shared::new(self.alloc, item)?;
        let mut order = self.order;
        order.set(index, (key, item))?;
        Ok(Catalog { order, ..self })
    }

    /// Takes the record under a key away. It fails where memory runs out.
    pub fn remove(self, key: Key) -> Result<Catalog<R>, AllocError>
        requires { IsSome (record_at self key) }
        ensures { IfOk result (λ catalog. catalog ≡ without_key self key) }
    {
        self.close_up()?.without(key)
    }

    /// The records without that of a key, which leaves a gap.
    fn without(self, key: Key) -> Result<Catalog<R>, AllocError>
        requires { IsSome (record_at self key) }
        ensures { IfOk result (λ catalog. catalog ≡ without_key self key) }
    {
        let Some(index) = self.slots.get(key) else {
            unreachable!()
        };
        let mut slots = self.slots;
        let mut order = self.order;
        slots.remove(key)?;
        order.clear(index)?;
        Ok(Catalog {
            slots,
            order,
            len: self.len - 1,
            ..self
        })
    }

    /// The same records, without their gaps where these are many. It fails where memory runs out.
    pub fn close_up(self) -> Result<Catalog<R>, AllocError>
        ensures { IfOk result (λ catalog. catalog ≡ self) }
    {
        if self.order.is_dense() {
            return Ok(self);
        }
        let (slots, order) = close_up(self.alloc, self.slots, self.order)?;
        Ok(Catalog {
            slots,
            order,
            ..self
        })
    }

    /// The law of every catalog; nothing runs.
    pub fn lawful(&self)
        ensures { AreDistinct R.name self.now }
    {
        let _order = &self.order;
    }
}

impl<R: Named> fmt::Debug for Catalog<R> {
    fn fmt<W: fmt::Write>(&self, f: &mut fmt::Formatter<W>) -> fmt::Result {
        f.debug_struct("Catalog")
            .field("len", &self.len())
            .finish_non_exhaustive()
    }
}
