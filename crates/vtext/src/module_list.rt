//! The modules of a text.

ghost use Rattle.std.specs.Prelude.{◌≡◌, nat_eq, IfSome, is_some, length, option_copied, option_map, slice_get};
ghost use Rattle.std.specs.Map.{lookup};
ghost use Rattle.vtext.specs.kept.Readings.{view};

use crate::draft::Draft;
use crate::module::Module;
use crate::names::Names;
use fourstate::TimeUnit;
use indexmap::IndexMap;
use std::marker::Model;

/// The modules of a text in order, with the table of its names.
#[derive(Drop)]
pub struct Modules<'a> {
    names: Names<'a>,
    unit: Option<TimeUnit>,
    modules: IndexMap<u32, Module>,
}

impl<'a> Model for Modules<'a> {
    ghost use Rattle.vtext.specs.Modules.{ModuleList};

    ghost Value = { ModuleList };

    ghost view = { λ a. record { names = a.names; unit = a.unit; modules = a.modules.entries } };
}

impl<'a> Modules<'a> {
    /// The modules that were read.
    pub fn new(names: Names<'a>, draft: Draft) -> Modules<'a>
        ensures { result ≡ record { names = names.entry; unit = (view draft).unit; modules = (view draft).modules } }
    {
        let Draft { unit, modules, .. } = draft;
        Modules {
            names,
            unit,
            modules,
        }
    }

    /// The names of the text: modules, nets and gates are named by their numbers.
    pub fn names(&self) -> &Names<'a>
        ensures { result.now ≡ self.now.names }
    {
        &self.names
    }

    /// The time unit of the text's first directive (IEEE 1364-2005, 19.8).
    pub fn unit(&self) -> Option<TimeUnit>
        ensures { result ≡ self.now.unit }
    {
        self.unit
    }

    /// How many modules there are.
    pub fn count(&self) -> usize
        ensures { result ≡ length self.now.modules }
    {
        self.modules.len()
    }

    /// The module at a place of the text's order, with the number of its name.
    pub fn at(&self, place: usize) -> Option<(u32, &Module)>
        ensures { option_map (λ found. (found.0, found.1.now)) result ≡ slice_get self.now.modules place }
    {
        let (name, module) = self.modules.get_index(place)?;
        Some((*name, module))
    }

    /// The module of this name, by its number; none where there is no such module.
    pub fn find(&self, name: u32) -> Option<&Module>
        ensures { option_copied result ≡ lookup (nat_eq name) self.now.modules }
    {
        self.modules.get(&name)
    }

    /// The place of the module of this name, by its number, in the text's order; none where there is no such module.
    pub fn place(&self, name: u32) -> Option<usize>
        ensures there { is_some result ≡ is_some (lookup (nat_eq name) self.now.modules) }
        ensures module { IfSome result (λ place. slice_get self.now.modules place ≡ option_map (λ found. (name, found)) (lookup (nat_eq name) self.now.modules)) }
    {
        self.modules.get_index_of(&name)
    }
}
