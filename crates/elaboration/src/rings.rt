//! Modules that are among their own instances, or theirs, and so on.

ghost use Rattle.std.specs.Prelude.{◌≡◌, ◌<◌, ◌||◌, ◌&&◌, ℕ, suc, false, true, IfOk, OnOk, length, nat_eq, slice_index_or};
ghost use Rattle.vtext.specs.Modules.{ModuleEntry};
ghost use Rattle.std.specs.List.{list_any};
ghost use Rattle.indexmap.specs.IndexSet.{contains};
ghost use Rattle.elaboration.specs.kept.Ranks.{fall};
ghost use Rattle.elaboration.specs.Tops.{instantiates, reaches};

use crate::ranks::Ranks;
use indexmap::IndexSet;
use std::alloc::{AllocError, Global};
use vtext::{Module, ModuleInstance, Modules};

/// Adds the names of the modules that some instances are of, and tells whether one is new.
pub fn add_modules(
    names: &mut IndexSet<u32>,
    instances: &[ModuleInstance],
) -> Result<bool, AllocError>
    ensures names { OnOk result ((name : ℕ) → contains nat_eq names.new name ≡ (contains nat_eq names.old name || list_any (λ i. nat_eq name i.«module») instances.now)) }
    ensures same { IfOk result (λ grew. grew ≡ false → (name : ℕ) → contains nat_eq names.new name ≡ contains nat_eq names.old name) }
{
    let mut grew = false;
    for instance in instances {
        if names.insert(instance.module())? {
            grew = true;
        }
    }
    Ok(grew)
}

/// Adds the names of the modules that a module has instances of, if it is in a set, and tells whether one is new.
fn add_inner_of(
    before: &IndexSet<u32>,
    names: &mut IndexSet<u32>,
    outer: u32,
    entry: &Module,
) -> Result<bool, AllocError>
    ensures names { OnOk result ((name : ℕ) → contains nat_eq names.new name ≡ (contains nat_eq names.old name || (contains nat_eq before.now outer && instantiates entry.now name))) }
    ensures same { IfOk result (λ grew. grew ≡ false → (name : ℕ) → contains nat_eq names.new name ≡ contains nat_eq names.old name) }
{
    if before.contains(&outer) {
        add_modules(names, entry.instances())
    } else {
        Ok(false)
    }
}

/// Adds the names of the modules that have instances in modules of a set, and tells whether one is new.
fn add_inner(
    modules: &Modules,
    before: &IndexSet<u32>,
    names: &mut IndexSet<u32>,
) -> Result<bool, AllocError>
    ensures names { OnOk result ((name : ℕ) → contains nat_eq names.new name ≡ (contains nat_eq names.old name || list_any (λ m. contains nat_eq before.now m.0 && instantiates m.1 name) modules.now.modules)) }
    ensures same { IfOk result (λ grew. grew ≡ false → (name : ℕ) → contains nat_eq names.new name ≡ contains nat_eq names.old name) }
{
    let mut grew = false;
    for place in 0..modules.count() {
        let (outer, entry) = at(modules, place);
        let more = add_inner_of(before, names, outer, entry)?;
        grew = grew || more;
    }
    Ok(grew)
}

/// The module at a place, with its name.
pub fn at<'a>(modules: &'a Modules, place: usize) -> (u32, &'a Module)
    requires { place < length modules.now.modules }
    ensures { (d : ℕ × ModuleEntry) → (result.0, result.1.now) ≡ slice_index_or modules.now.modules place d }
{
    match modules.at(place) {
        Some(found) => found,
        None => unreachable!(),
    }
}

/// Adds the names of the modules that are reached through one module more, and tells whether one is new.
fn reach_on(modules: &Modules, reached: &mut IndexSet<u32>) -> Result<bool, AllocError>
    ensures names { (from between : ℕ) → ((name : ℕ) → contains nat_eq reached.old name ≡ reaches modules.now.modules from between name) →
        OnOk result ((name : ℕ) → contains nat_eq reached.new name ≡ reaches modules.now.modules from (suc between) name) }
    ensures same { IfOk result (λ grew. grew ≡ false → (name : ℕ) → contains nat_eq reached.new name ≡ contains nat_eq reached.old name) }
{
    let before = reached.clone()?;
    add_inner(modules, &before, reached)
}

/// The names of the modules that the module of a name has instances of.
fn inner_of(alloc: Global, modules: &Modules, name: u32) -> Result<IndexSet<u32>, AllocError>
    ensures { IfOk result (λ reached. (to : ℕ) → contains nat_eq reached to ≡ reaches modules.now.modules name 0 to) }
{
    let mut reached = IndexSet::<u32>::new(alloc);
    if let Some(entry) = modules.find(name) {
        add_modules(&mut reached, entry.instances())?;
    }
    Ok(reached)
}

/// Whether the module of a name is found among its own instances, or theirs, and so on, by a walk that takes each module once.
/// In texts whose modules are all there and have different names it is found if it is there.
fn is_found(alloc: Global, modules: &Modules, name: u32) -> Result<bool, AllocError>
    ensures { IfOk result (λ found. found ≡ true → reaches modules.now.modules name (length modules.now.modules) name ≡ true) }
{
    let mut reached = inner_of(alloc, modules, name)?;
    for place in 0..modules.count() {
        if reached.contains(&name) {
            return Ok(true);
        }
        add_inner_at(modules, &mut reached, place)?;
    }
    Ok(false)
}

/// Adds the names of the modules that the module at a place of a set has instances of.
fn add_inner_at(
    modules: &Modules,
    reached: &mut IndexSet<u32>,
    place: usize,
) -> Result<(), AllocError>
    ensures { (from between : ℕ) → ((name : ℕ) → contains nat_eq reached.old name ≡ true → reaches modules.now.modules from between name ≡ true) →
        OnOk result ((name : ℕ) → contains nat_eq reached.new name ≡ true → reaches modules.now.modules from (suc between) name ≡ true) }
{
    if let Some(name) = reached.get_index(place).copied() {
        if let Some(entry) = modules.find(name) {
            add_modules(reached, entry.instances())?;
        }
    }
    Ok(())
}

/// Whether the module of a name is among its own instances, or theirs, and so on, found in as many rounds as it takes.
fn is_reached(alloc: Global, modules: &Modules, name: u32) -> Result<bool, AllocError>
    ensures { IfOk result (λ reached. reached ≡ reaches modules.now.modules name (length modules.now.modules) name) }
{
    let mut reached = inner_of(alloc, modules, name)?;
    for _between in 0..modules.count() {
        if !reach_on(modules, &mut reached)? {
            return Ok(reached.contains(&name));
        }
    }
    Ok(reached.contains(&name))
}

/// Whether the module of a name is among its own instances, or theirs, and so on, where ranks of modules never fall.
pub fn is_recursive(
    alloc: Global,
    modules: &Modules,
    ranks: &Ranks,
    name: u32,
) -> Result<bool, AllocError>
    requires { fall ranks.now modules.now.modules ≡ false }
    ensures { IfOk result (λ recursive. recursive ≡ reaches modules.now.modules name (length modules.now.modules) name) }
{
    if !ranks.may_recur(modules, name) {
        return Ok(false);
    }
    if is_found(alloc, modules, name)? {
        return Ok(true);
    }
    is_reached(alloc, modules, name)
}
