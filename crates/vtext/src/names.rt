//! The table of names.

ghost use Rattle.std.specs.Prelude.{◌≡◌, ◌≤◌, ◌^◌, [], IfOk, IfSome, OnOk, OnErr, Some, length};
ghost use Rattle.vtext.specs.Names.{name_at, number_of, with_name};

use crate::fingerprint::fingerprint;
use crate::recent::{Noted, Recent};
use catalog::spelling::{Spelling, is_short};
use design::NameHasher;
use indexmap::IndexSet;
use std::alloc::{AllocError, Global};
use std::marker::Model;

/// The names of a text, each once and as a part of it: a name is known by its place, its number. There is room for
/// 4,294,967,296.
#[derive(Drop)]
pub struct Names<'a> {
    texts: IndexSet<Spelling<'a>, NameHasher>,
    recent: Recent,
}

impl<'a> Model for Names<'a> {
    ghost use Rattle.std.specs.Prelude.{ℕ, ◌^◌, ◌≤◌, List, map, length};

    ghost Value = { List (List ℕ) };

    ghost use Rattle.vtext.specs.kept.Recents.{AreRight};

    ghost view = { λ a. map (λ text. text.bytes.now) a.texts.keys };

    ghost invariant = { λ a. (length a.texts.keys ≤ 2 ^ 32) × AreRight (map (λ text. text.bytes.now) a.texts.keys) a.recent };
}

impl<'a> Names<'a> {
    /// No names, to be hashed so.
    pub fn new(alloc: Global, hasher: NameHasher) -> Names<'a>
        ensures { result ≡ [] }
    {
        Names {
            texts: IndexSet::with_hasher(alloc, hasher),
            recent: Recent::new(alloc),
        }
    }

    /// Makes room for so many more names.
    pub fn reserve(&mut self, count: usize) -> Result<(), AllocError>
        ensures { self.new ≡ self.old }
    {
        self.texts.reserve(count)
    }

    /// The number of a name; none of one that is not there.
    #[tactic(auto, using(crate::proofs::NameLemmas::texts_found))]
    pub fn find(&self, name: &[u8]) -> Option<u32>
        ensures { result ≡ number_of self.now name.now }
    {
        let place = self.texts.get_index_of(&Spelling { bytes: name })?;
        Some(place as u32)
    }

    /// How many names there are.
    pub fn len(&self) -> usize
        ensures count { result ≡ length self.now }
        ensures most { result ≤ 2 ^ 32 }
    {
        self.texts.len()
    }

    /// The name of a number; empty where there is none.
    pub fn text(&self, number: u32) -> &[u8]
        ensures { result.now ≡ name_at self.now number }
    {
        match self.texts.get_index(number as usize) {
            Some(text) => text.bytes,
            None => &[],
        }
    }

    /// Adds a name where it is new, and answers its number.
    pub fn add(&mut self, name: &'a [u8]) -> Result<u32, AllocError>
        ensures ok { OnOk result (self.new ≡ with_name self.old name.now) }
        ensures number { IfOk result (λ number. number_of self.new name.now ≡ Some number) }
        ensures err { OnErr result (self.new ≡ self.old) }
    {
        let fingerprint = fingerprint(name);
        if let Some(number) = self.recent_number(fingerprint, name) {
            return Ok(number);
        }
        let number = self.insert(name)?;
        self.recent.note(fingerprint, Noted::new(name, number));
        Ok(number)
    }

    /// The number of a name, where it is the one that is noted for its fingerprint.
    #[inline(always)]
    fn recent_number(&self, fingerprint: u64, name: &[u8]) -> Option<u32>
        ensures { IfSome result (λ number. number_of self.now name.now ≡ Some number) }
    {
        let noted = self.recent.get(fingerprint)?;
        if is_short(name) {
            return noted.is_of(name).then_some(noted.number);
        }
        let _ = self.texts.len();
        match self.texts.get_index(noted.number as usize) {
            Some(text) if text.bytes == name => Some(noted.number),
            _ => None,
        }
    }

    /// Adds a name where it is new, and answers its number: it is looked for by its hash.
    fn insert(&mut self, name: &'a [u8]) -> Result<u32, AllocError>
        ensures ok { OnOk result (self.new ≡ with_name self.old name.now) }
        ensures number { IfOk result (λ number. number_of self.new name.now ≡ Some number) }
        ensures err { OnErr result (self.new ≡ self.old) }
    {
        let count = self.texts.len();
        if count > u32::MAX as usize {
            return Err(AllocError);
        }
        self.recent.make_room(count)?;
        let (place, _) = self.texts.insert_full(Spelling { bytes: name })?;
        Ok(place as u32)
    }
}
