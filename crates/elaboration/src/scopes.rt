//! The scopes of a design, one after another.

ghost use Rattle.std.specs.Prelude.{◌≡◌, ◌<◌, ◌≤◌, [], IfOk, IfSome, OnOk, All, length, nat_eq, option_map, slice_index_or};
ghost use Rattle.std.specs.Map.{lookup};
ghost use Rattle.elaboration.specs.kept.Numbered.{AreDistinct, PlacedScope, inner_start, with_scope, with_scopes};

use crate::scope::Scope;
use crate::slots::slots_of;
use crate::start::Start;
use std::alloc::{AllocError, Global};
use std::marker::Model;
use vtext::{ModuleInstance, Modules};

/// The scopes so far, and how many nets come with them.
#[derive(Drop)]
pub struct Scopes<'a> {
    list: Vec<Scope<'a>>,
    count: u32,
}

impl<'a> Model for Scopes<'a> {
    ghost use Rattle.elaboration.specs.kept.Numbered.{SoFar};

    ghost Value = { SoFar };

    ghost view = { λ a. record { list = a.list.items; count = a.count } };
}

impl<'a> Scopes<'a> {
    /// No scopes.
    pub fn new(alloc: Global) -> Scopes<'a>
        ensures { result ≡ record { list = []; count = 0 } }
    {
        Scopes {
            list: Vec::new(alloc),
            count: 0,
        }
    }

    /// The scopes in order.
    pub fn list(&self) -> &[Scope<'a>]
        ensures { result.now ≡ self.now.list }
    {
        self.list.as_slice()
    }

    /// How many nets come with them, as far as numbers go.
    pub fn count(&self) -> u32
        ensures { result ≡ self.now.count }
    {
        self.count
    }

    /// Adds a scope.
    fn add(&mut self, alloc: Global, start: Start<'a>) -> Result<(), AllocError>
        requires { length start.given ≡ length start.entry.nets }
        ensures { OnOk result (self.new ≡ with_scope self.old start.entry) }
    {
        let Start {
            entry,
            path,
            is_top,
            given,
        } = start;
        let slots = slots_of(alloc, entry, is_top, given.as_slice(), self.count)?;
        self.list.push(Scope::new(entry, path, slots.items))?;
        self.count = slots.next;
        Ok(())
    }

    /// Adds a scope and those below it, to so many levels; no more of them once more nets than `most` come with all.
    pub fn add_all(
        &mut self,
        alloc: Global,
        modules: &'a Modules,
        start: Start<'a>,
        levels: usize,
        most: u32,
    ) -> Result<(), AllocError>
        requires given { length start.given ≡ length start.entry.nets }
        requires distinct { All (λ m. AreDistinct m.1.nets) modules.now.modules }
        ensures few { OnOk result (self.new.count ≤ most → self.new ≡ with_scopes modules.now.names modules.now.modules levels self.old start.entry) }
        ensures many { OnOk result (most < self.new.count → most < (with_scopes modules.now.names modules.now.modules levels self.old start.entry).count) }
    {
        let place = self.list.len();
        let entry = start.entry;
        self.add(alloc, start)?;
        if levels == 0 {
            return Ok(());
        }
        for instance in entry.instances() {
            if self.count > most {
                return Ok(());
            }
            if let Some(start) = self.start_of(alloc, modules, place, instance)? {
                self.add_all(alloc, modules, start, levels - 1, most)?;
            }
        }
        Ok(())
    }

    /// The scope of an instance in the scope at a place, if the text has its module.
    fn start_of(
        &self,
        alloc: Global,
        modules: &'a Modules,
        place: usize,
        instance: &ModuleInstance,
    ) -> Result<Option<Start<'a>>, AllocError>
        requires place { place < length self.now.list }
        requires distinct { All (λ m. AreDistinct m.1.nets) modules.now.modules }
        ensures given { IfOk result (λ start. IfSome start (λ s. length s.given ≡ length s.entry.nets)) }
        ensures start { IfOk result (λ start. (d : PlacedScope) → start ≡ option_map (inner_start modules.now.names (slice_index_or self.now.list place d) instance.now) (lookup (nat_eq instance.now.«module») modules.now.modules)) }
    {
        let Some(entry) = modules.find(instance.module()) else {
            return Ok(None);
        };
        let scope = &self.list[place];
        let start = Start::inner(alloc, modules.names(), scope, instance, entry)?;
        Ok(Some(start))
    }
}
