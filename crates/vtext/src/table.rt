//! The table of names, with what each says as a word.

ghost use Rattle.std.specs.Prelude.{◌≡◌, [], IfOk, None, OnOk, Some};
ghost use Rattle.vtext.specs.Keywords.{name_word, plain_word};
ghost use Rattle.vtext.specs.kept.Keywords.{meanings_of};
ghost use Rattle.vtext.specs.Names.{number_of, with_name};

use crate::keywords::{name_word, plain_word};
use crate::names::Names;
use crate::word::Word;
use design::NameHasher;
use fourstate::TimeUnit;
use std::alloc::{AllocError, Global};

/// The names of a text so far, and what each says where it is not escaped, by its number.
#[derive(Drop)]
pub struct Table<'a> {
    pub names: Names<'a>,
    pub meanings: Vec<Word>,
    /// The unit of the text's first directive, once there was one.
    pub directive: Option<Option<TimeUnit>>,
}

impl<'a> Table<'a> {
    /// No names, to be hashed so.
    pub fn new(alloc: Global, hasher: NameHasher) -> Table<'a>
        ensures names { result.names ≡ [] }
        ensures meanings { result.meanings.items ≡ [] }
        ensures directive { result.directive ≡ None }
    {
        Table {
            names: Names::new(alloc, hasher),
            meanings: Vec::new(alloc),
            directive: None,
        }
    }

    /// The number of a name, which is added where it is new.
    fn number(&mut self, name: &'a [u8]) -> Result<u32, AllocError>
        requires { self.old.meanings.items ≡ meanings_of self.old.names }
        ensures names { OnOk result (self.new.names ≡ with_name self.old.names name.now) }
        ensures meanings { OnOk result (self.new.meanings.items ≡ meanings_of self.new.names) }
        ensures directive { self.new.directive ≡ self.old.directive }
        ensures number { IfOk result (λ number. number_of self.new.names name.now ≡ Some number) }
    {
        let number = self.names.add(name)?;
        if number as usize == self.meanings.len() {
            self.meanings.push(plain_word(number, name))?;
        }
        Ok(number)
    }

    /// A word, or a name that is not escaped.
    pub fn plain_word(&mut self, name: &'a [u8]) -> Result<Word, AllocError>
        requires { self.old.meanings.items ≡ meanings_of self.old.names }
        ensures names { OnOk result (self.new.names ≡ with_name self.old.names name.now) }
        ensures meanings { OnOk result (self.new.meanings.items ≡ meanings_of self.new.names) }
        ensures directive { self.new.directive ≡ self.old.directive }
        ensures word { IfOk result (λ word. word ≡ plain_word self.new.names name.now) }
    {
        let number = self.number(name)?;
        Ok(self.meanings[number as usize])
    }

    /// An escaped name.
    pub fn name_word(&mut self, name: &'a [u8]) -> Result<Word, AllocError>
        requires { self.old.meanings.items ≡ meanings_of self.old.names }
        ensures names { OnOk result (self.new.names ≡ with_name self.old.names name.now) }
        ensures meanings { OnOk result (self.new.meanings.items ≡ meanings_of self.new.names) }
        ensures directive { self.new.directive ≡ self.old.directive }
        ensures word { IfOk result (λ word. word ≡ name_word self.new.names name.now) }
    {
        let number = self.number(name)?;
        Ok(name_word(number, name))
    }
}
