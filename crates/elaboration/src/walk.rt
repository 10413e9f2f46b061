//! A walk over modules, depth first, that finds their ranks in linear time: a module's rank is no higher than those of its
//! instances' modules, and the same only within a ring. Nothing rests on its being right: ranks are tested before they are used.

use indexmap::IndexMap;
use std::alloc::{AllocError, Global};
use vtext::{Module, ModuleInstance, Modules};

/// A module whose instances are being visited.
#[derive(Clone, Copy)]
struct Visit<'a> {
    name: u32,
    /// The module's number when it was entered.
    number: usize,
    /// The instances that are still to be visited.
    rest: &'a [ModuleInstance],
}

/// Modules that are visited after each other. Until a module's rank is known its number tells how many modules without one were
/// entered before it, or before a module of its ring.
#[derive(Drop)]
struct Walk<'a> {
    /// The numbers of modules that were entered, and in the end their ranks.
    numbers: IndexMap<u32, usize>,
    /// The number of the next module that is entered.
    next: usize,
    /// The rank of the next module or ring that is left: each is lower than those before it.
    rank: usize,
    /// The modules being visited, each being the module of an instance in the one before it.
    visits: Vec<Visit<'a>>,
    /// The modules whose instances were all visited, but of whose ring one is still being visited.
    waiting: Vec<u32>,
}

/// A rank for each module.
pub fn walk_ranks(alloc: Global, modules: &Modules) -> Result<IndexMap<u32, usize>, AllocError> {
    let mut walk = Walk::new(alloc, modules.count());
    for place in 0..modules.count() {
        if let Some((name, entry)) = modules.at(place) {
            walk.visit(modules, name, entry)?;
        }
    }
    Ok(walk.numbers)
}

impl<'a> Walk<'a> {
    /// No module was visited, of so many.
    fn new(alloc: Global, count: usize) -> Walk<'a> {
        Walk {
            numbers: IndexMap::<u32, usize>::new(alloc),
            next: 0,
            rank: count,
            visits: Vec::new(alloc),
            waiting: Vec::new(alloc),
        }
    }

    /// Visits a module and all below it, if it was not.
    fn visit(
        &mut self,
        modules: &'a Modules,
        name: u32,
        entry: &'a Module,
    ) -> Result<(), AllocError> {
        if self.number(name).is_some() {
            return Ok(());
        }
        self.enter(name, entry)?;
        for _step in 0..usize::MAX {
            let Some(visit) = self.visits.pop() else {
                return Ok(());
            };
            self.step(modules, visit)?;
        }
        Ok(())
    }

    /// The number of a module that was entered.
    fn number(&self, name: u32) -> Option<usize> {
        self.numbers.get(&name).copied()
    }

    /// Begins to visit a module.
    fn enter(&mut self, name: u32, entry: &'a Module) -> Result<(), AllocError> {
        let number = self.next;
        self.numbers.insert(name, number)?;
        self.next = number.saturating_add(1);
        self.visits.push(Visit {
            name,
            number,
            rest: entry.instances(),
        })?;
        Ok(())
    }

    /// Goes on with a visit: to the module of the next instance, past the instance, or out of the module.
    fn step(&mut self, modules: &'a Modules, visit: Visit<'a>) -> Result<(), AllocError> {
        let Some((instance, rest)) = visit.rest.split_first() else {
            return self.leave(visit);
        };
        if let Some(number) = self.number(instance.module()) {
            self.lower(visit.name, number)?;
        } else if let Some(entry) = modules.find(instance.module()) {
            self.visits.push(visit)?;
            return self.enter(instance.module(), entry);
        }
        self.visits.push(Visit { rest, ..visit })?;
        Ok(())
    }

    /// Lowers the number of a module to that of a module that it has an instance of.
    fn lower(&mut self, name: u32, number: usize) -> Result<(), AllocError> {
        if self.number(name).is_some_and(|before| number < before) {
            self.numbers.insert(name, number)?;
        }
        Ok(())
    }

    /// Ends a visit: the module waits for others of its ring, or it is the first of them, and all get their rank.
    fn leave(&mut self, visit: Visit<'a>) -> Result<(), AllocError> {
        if self
            .number(visit.name)
            .is_some_and(|number| number < visit.number)
        {
            self.waiting.push(visit.name)?;
            return Ok(());
        }
        for _waits in 0..self.waiting.len() {
            let Some(name) = self.waiting_from(visit.number) else {
                break;
            };
            self.settle(name)?;
        }
        self.settle(visit.name)?;
        self.rank = self.rank.saturating_sub(1);
        Ok(())
    }

    /// Takes the last module that waits, if its number is no lower than this.
    fn waiting_from(&mut self, number: usize) -> Option<u32> {
        let name = *self.waiting.last()?;
        if self.number(name)? < number {
            return None;
        }
        self.waiting.pop()
    }

    /// Gives a module its rank.
    fn settle(&mut self, name: u32) -> Result<(), AllocError> {
        self.numbers.insert(name, self.rank)?;
        self.next = self.next.saturating_sub(1);
        Ok(())
    }
}
