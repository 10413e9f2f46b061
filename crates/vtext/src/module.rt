//! Modules as they are read.

ghost use Rattle.std.specs.Prelude.{◌≡◌, ◌<◌, IfOk, IfSome, IsSome, Some, is_some, length, option_map, slice_get};
ghost use Rattle.vtext.specs.Modules.{ModuleEntry};
ghost use Rattle.vtext.specs.Nets.{net_of};
ghost use Rattle.vtext.specs.kept.Nets.{place_of};

use crate::gate::Gate;
use crate::hints::Hints;
use crate::module_instance::ModuleInstance;
use crate::net::Net;
use indexmap::IndexMap;
use std::alloc::{AllocError, Global};
use std::marker::Model;

/// A module: its nets by the numbers of their names, first the ports in the header's order, then the others by first
/// appearance, its gates and its instances of modules in the text's order.
#[derive(Drop)]
pub struct Module {
    start: u32,
    nets: IndexMap<u32, Net>,
    hints: Hints,
    gates: Vec<Gate>,
    instances: Vec<ModuleInstance>,
}

impl Model for Module {
    ghost use Rattle.vtext.specs.Modules.{ModuleEntry};

    ghost Value = { ModuleEntry };

    ghost view = { λ a. record { start = a.start; nets = a.nets.entries; gates = a.gates.items; instances = a.instances.items } };
}

impl Module {
    /// A module of these nets, gates and instances.
    pub fn new(
        alloc: Global,
        start: u32,
        nets: IndexMap<u32, Net>,
        gates: Vec<Gate>,
        instances: Vec<ModuleInstance>,
    ) -> Result<Module, AllocError>
        ensures { IfOk result (λ made. made ≡ record { start = start; nets = nets.entries; gates = gates.items; instances = instances.items }) }
    {
        let hints = Hints::of(alloc, &nets)?;
        Ok(Module {
            start,
            nets,
            hints,
            gates,
            instances,
        })
    }

    /// Where the word `module` begins in the text, from 0.
    pub fn start(&self) -> u32
        ensures { result ≡ self.now.start }
    {
        self.start
    }

    /// How many nets there are.
    pub fn net_count(&self) -> usize
        ensures { result ≡ length self.now.nets }
    {
        self.nets.len()
    }

    /// The net at a place of the module's order, with the number of its name.
    pub fn net_at(&self, place: usize) -> Option<(u32, Net)>
        ensures { result ≡ slice_get self.now.nets place }
    {
        let (name, net) = self.nets.get_index(place)?;
        Some((*name, *net))
    }

    /// What is said of the net of this name, by its number; none where there is no such net.
    pub fn net(&self, name: u32) -> Option<Net>
        ensures { result ≡ net_of self.now.nets name }
    {
        self.nets.get(&name).copied()
    }

    /// The place of the net of this name, by its number, in the module's order; none where there is no such net.
    #[inline(always)]
    pub fn net_place(&self, name: u32) -> Option<usize>
        ensures place { result ≡ place_of self.now.nets name }
        ensures there { is_some result ≡ is_some (net_of self.now.nets name) }
        ensures net { IfSome result (λ place. slice_get self.now.nets place ≡ option_map (λ net. (name, net)) (net_of self.now.nets name)) }
    {
        if let Some(place) = self.hinted_place(name) {
            return Some(place);
        }
        self.nets.get_index_of(&name)
    }

    /// The place of the net of this name, where it stands at the place that is noted.
    #[inline(always)]
    fn hinted_place(&self, name: u32) -> Option<usize>
        ensures place { IfSome result (λ place. place_of self.now.nets name ≡ Some place) }
        ensures net { IfSome result (λ place. slice_get self.now.nets place ≡ option_map (λ net. (name, net)) (net_of self.now.nets name)) }
        ensures there { IsSome result → IsSome (net_of self.now.nets name) }
    {
        let place = self.hints.get(name)?;
        let _ = self.nets.len();
        match self.nets.get_index(place) {
            Some((key, _)) if *key == name => Some(place),
            _ => None,
        }
    }

    /// The gates in order.
    pub fn gates(&self) -> &[Gate]
        ensures { result.now ≡ self.now.gates }
    {
        self.gates.as_slice()
    }

    /// The instances of modules in order.
    pub fn instances(&self) -> &[ModuleInstance]
        ensures { result.now ≡ self.now.instances }
    {
        self.instances.as_slice()
    }
}
