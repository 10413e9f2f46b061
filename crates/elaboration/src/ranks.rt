//! Ranks of modules: those of its instances' modules are no lower than a module's own, and higher where it is in no ring.

ghost use Rattle.std.specs.Prelude.{◌≡◌, [], ℕ, false, IfOk};
ghost use Rattle.std.specs.List.{list_any};
ghost use Rattle.elaboration.specs.kept.Ranks.{fall, is_level, is_lower, rank_of};
ghost use Rattle.elaboration.specs.Tops.{reaches};

use crate::rings::at;
use crate::walk::walk_ranks;
use indexmap::IndexMap;
use std::alloc::{AllocError, Global};
use std::marker::Model;
use vtext::{ModuleInstance, Modules};

/// Ranks of modules by their names, 0 where there is none.
#[derive(Drop)]
pub struct Ranks {
    ranks: IndexMap<u32, usize>,
}

impl Model for Ranks {
    ghost use Rattle.std.specs.Prelude.{ℕ, List};

    ghost Value = { List (ℕ × ℕ) };

    ghost view = { λ a. a.ranks.entries };
}

impl Ranks {
    /// Ranks that never fall from a module to those of its instances: those of a walk, if they are so.
    pub fn of(alloc: Global, modules: &Modules) -> Result<Ranks, AllocError>
        ensures { IfOk result (λ ranks. fall ranks modules.now.modules ≡ false) }
    {
        let ranks = Ranks {
            ranks: walk_ranks(alloc, modules)?,
        };
        if ranks.fall(modules) {
            return Ok(Ranks::none(alloc));
        }
        Ok(ranks)
    }

    /// No ranks.
    fn none(alloc: Global) -> Ranks
        ensures { result ≡ [] }
    {
        Ranks {
            ranks: IndexMap::<u32, usize>::new(alloc),
        }
    }

    /// The rank of the module of a name.
    fn rank(&self, name: u32) -> usize
        ensures { result ≡ rank_of self.now name }
    {
        match self.ranks.get(&name) {
            Some(rank) => *rank,
            None => 0,
        }
    }

    /// Whether the rank of a module of one of some instances is lower than this.
    fn are_lower(&self, instances: &[ModuleInstance], rank: usize) -> bool
        ensures { result ≡ list_any (is_lower self.now rank) instances.now }
    {
        for instance in instances {
            if self.rank(instance.module()) < rank {
                return true;
            }
        }
        false
    }

    /// Whether the rank of a module of one of some instances is this.
    fn are_level(&self, instances: &[ModuleInstance], rank: usize) -> bool
        ensures { result ≡ list_any (is_level self.now rank) instances.now }
    {
        for instance in instances {
            if rank == self.rank(instance.module()) {
                return true;
            }
        }
        false
    }

    /// Whether ranks fall from a module to one of its instances.
    fn fall(&self, modules: &Modules) -> bool
        ensures { result ≡ fall self.now modules.now.modules }
    {
        for place in 0..modules.count() {
            let (name, entry) = at(modules, place);
            if self.are_lower(entry.instances(), self.rank(name)) {
                return true;
            }
        }
        false
    }

    /// Whether the module of a name may be in a ring, where ranks never fall: an instance is of a module of its own rank.
    pub fn may_recur(&self, modules: &Modules, name: u32) -> bool
        requires { fall self.now modules.now.modules ≡ false }
        ensures { result ≡ false → (between : ℕ) → reaches modules.now.modules name between name ≡ false }
    {
        match modules.find(name) {
            Some(entry) => self.are_level(entry.instances(), self.rank(name)),
            None => false,
        }
    }
}
