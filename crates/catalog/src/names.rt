//! Keys by name.

ghost use Rattle.std.specs.Prelude.{◌≡◌, List, ℕ, None, Some, IfOk, OnOk, if◌then◌else◌};
ghost use Rattle.std.specs.Arc.{arc_value};
ghost use Rattle.catalog.specs.Catalog.{same_name};
ghost use Rattle.catalog.specs.kept.Found.{found, found_in, key_under};

use crate::by_name::ByName;
use crate::hasher::NameHasher;
use crate::key::Key;
use crate::named::Named;
use crate::spelling::Spelling;
use indexmap::IndexMap;
use std::alloc::{AllocError, Global};
use std::sync::Arc;

/// How many names are kept apart from those that copies of a catalog share, before all are gathered anew (own).
const MAX_ADDED: usize = 1_024;

/// Keys, each under a record that had its name, and no name twice.
pub(crate) type Map<R> = IndexMap<ByName<R>, Key, NameHasher>;

/// The key that each name had last: the names that copies of a catalog share, and those added since. A name is that of
/// the first record that had it since all were gathered anew: this one stays in memory until they are again, also where
/// another record is under the key by then, or none. So names that no record has any more may be among them.
#[derive(Drop)]
pub(crate) struct Names<R: Named> {
    pub(crate) base: Option<Arc<Map<R>>>,
    pub(crate) added: Option<Arc<Map<R>>>,
}

impl<R: Named> Names<R> {
    /// No name.
    pub(crate) fn empty() -> Names<R>
        ensures { (name : List ℕ) → found R.name result name ≡ None }
    {
        Names {
            base: None,
            added: None,
        }
    }

    /// The same names, with one owner more.
    pub(crate) fn try_clone(&self) -> Result<Names<R>, AllocError>
        ensures { IfOk result (λ copy. (name : List ℕ) → found R.name copy name ≡ found R.name self.now name) }
    {
        let base = try_clone(&self.base)?;
        let added = try_clone(&self.added)?;
        Ok(Names { base, added })
    }

    /// The key that a name had last.
    pub(crate) fn get(&self, name: &str) -> Option<Key>
        ensures { result ≡ found R.name self.now name.now }
    {
        match get(&self.added, name) {
            Some(key) => Some(key),
            None => get(&self.base, name),
        }
    }

    /// Whether it is time to gather anew the names of so many records.
    pub(crate) fn is_full(&self, len: usize) -> bool {
        let limit = len.saturating_mul(2).saturating_add(MAX_ADDED);
        count(&self.added) >= MAX_ADDED || count(&self.base) >= limit
    }

    /// Puts this key under the name of a record: into the base where that has no other owner.
    pub(crate) fn insert(
        &mut self,
        alloc: Global,
        hasher: NameHasher,
        name: ByName<R>,
        key: Key,
    ) -> Result<(), AllocError>
        ensures { OnOk result ((other : List ℕ) → found R.name self.new other ≡ (if same_name (R.name name.record) other then Some key else found R.name self.old other)) }
    {
        if let Some(added) = &mut self.added {
            put(added, name, key)?;
            return Ok(());
        }
        if let Some(base) = &mut self.base {
            if Arc::strong_count(base) == 1 {
                put(base, name, key)?;
                return Ok(());
            }
        }
        self.add(alloc, hasher, name, key)
    }

    /// Puts this key under the name of a record, where no name was added.
    fn add(
        &mut self,
        alloc: Global,
        hasher: NameHasher,
        name: ByName<R>,
        key: Key,
    ) -> Result<(), AllocError>
        requires { self.old.added ≡ None }
        ensures { OnOk result ((other : List ℕ) → found R.name self.new other ≡ (if same_name (R.name name.record) other then Some key else found R.name self.old other)) }
    {
        let names = first(alloc, hasher, name, key)?;
        if self.base.is_some() {
            self.added = Some(names);
        } else {
            self.base = Some(names);
        }
        Ok(())
    }
}

/// This key alone under a name.
fn first<R: Named>(
    alloc: Global,
    hasher: NameHasher,
    name: ByName<R>,
    key: Key,
) -> Result<Arc<Map<R>>, AllocError>
    ensures { IfOk result (λ map. (other : List ℕ) → key_under R.name (arc_value map) other ≡ (if same_name (R.name name.record) other then Some key else None)) }
{
    let mut map = IndexMap::with_hasher(alloc, hasher);
    write(&mut map, name, key)?;
    Ok(Arc::new(alloc, map)?)
}

/// Puts this key under a name of a map, which is copied first where it has other owners.
fn put<R: Named>(map: &mut Arc<Map<R>>, name: ByName<R>, key: Key) -> Result<(), AllocError>
    ensures { OnOk result ((other : List ℕ) → key_under R.name (arc_value map.new) other ≡ (if same_name (R.name name.record) other then Some key else key_under R.name (arc_value map.old) other)) }
{
    write(Arc::make_mut(map)?, name, key)?;
    Ok(())
}

/// Puts this key under a name.
pub(crate) fn write<R: Named>(map: &mut Map<R>, name: ByName<R>, key: Key) -> Result<(), AllocError>
    ensures { OnOk result ((other : List ℕ) → key_under R.name map.new other ≡ (if same_name (R.name name.record) other then Some key else key_under R.name map.old other)) }
{
    map.insert(name, key)?;
    Ok(())
}

fn try_clone<R: Named>(part: &Option<Arc<Map<R>>>) -> Result<Option<Arc<Map<R>>>, AllocError>
    ensures { IfOk result (λ copy. (name : List ℕ) → found_in R.name copy name ≡ found_in R.name part.now name) }
{
    match part {
        Some(map) => Ok(Some(Arc::try_clone(map)?)),
        None => Ok(None),
    }
}

fn get<R: Named>(part: &Option<Arc<Map<R>>>, name: &str) -> Option<Key>
    ensures { result ≡ found_in R.name part.now name.now }
{
    match part {
        Some(map) => {
            let bytes = name.as_bytes();
            map.get(Spelling { bytes }).copied()
        }
        None => None,
    }
}

fn count<R: Named>(part: &Option<Arc<Map<R>>>) -> usize {
    match part {
        Some(map) => map.len(),
        None => 0,
    }
}
