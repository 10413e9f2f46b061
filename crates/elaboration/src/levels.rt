//! How many levels of modules there are, found without writing them out.

ghost use Rattle.std.specs.Prelude.{◌≡◌, ℕ, suc, false, IfOk, map, nat_eq, slice_index_or};
ghost use Rattle.std.specs.List.{list_any};
ghost use Rattle.std.specs.Map.{lookup};
ghost use Rattle.std.specs.Option.{option_map_or};
ghost use Rattle.elaboration.specs.Levels.{is_deeper};

use crate::ports::instances_at;
use std::alloc::{AllocError, Global};
use vtext::{ModuleInstance, Modules};

/// Whether the module of an instance has more levels than those that a list tells of, for each module.
fn is_deep(modules: &Modules, deep: &[bool], instance: &ModuleInstance) -> bool
    ensures { (levels : ℕ) → deep.now ≡ map (λ m. is_deeper modules.now.modules levels m.1) modules.now.modules →
        result ≡ option_map_or (is_deeper modules.now.modules levels) (lookup (nat_eq instance.now.«module») modules.now.modules) false }
{
    match modules.place(instance.module()) {
        Some(place) => is_set(deep, place),
        None => false,
    }
}

/// Whether a flag is set, by its place.
pub fn is_set(flags: &[bool], place: usize) -> bool
    ensures { result ≡ slice_index_or flags.now place false }
{
    match flags.get(place) {
        Some(flag) => *flag,
        None => false,
    }
}

/// Whether each module has one level more than those that a list tells of.
fn one_more(alloc: Global, modules: &Modules, deep: &[bool]) -> Result<Vec<bool>, AllocError>
    ensures { IfOk result (λ more. (levels : ℕ) → deep.now ≡ map (λ m. is_deeper modules.now.modules levels m.1) modules.now.modules →
        more.items ≡ map (λ m. is_deeper modules.now.modules (suc levels) m.1) modules.now.modules) }
{
    let mut more = Vec::with_capacity(alloc, modules.count())?;
    for place in 0..modules.count() {
        let instances = instances_at(modules, place);
        more.push(are_deep(modules, deep, instances))?;
    }
    Ok(more)
}

/// Whether the module of one of some instances has more levels than those that a list tells of.
fn are_deep(modules: &Modules, deep: &[bool], instances: &[ModuleInstance]) -> bool
    ensures { (levels : ℕ) → deep.now ≡ map (λ m. is_deeper modules.now.modules levels m.1) modules.now.modules →
        result ≡ list_any (λ i. option_map_or (is_deeper modules.now.modules levels) (lookup (nat_eq i.«module») modules.now.modules) false) instances.now }
{
    for instance in instances {
        if is_deep(modules, deep, instance) {
            return true;
        }
    }
    false
}

/// Whether each module has more than so many levels, its own being one.
pub fn are_deeper(alloc: Global, modules: &Modules, levels: usize) -> Result<Vec<bool>, AllocError>
    ensures { IfOk result (λ deep. deep.items ≡ map (λ m. is_deeper modules.now.modules levels m.1) modules.now.modules) }
{
    let mut deep = all_deep(alloc, modules)?;
    for _level in 0..levels {
        let more = one_more(alloc, modules, deep.as_slice())?;
        if more.as_slice() == deep.as_slice() {
            return Ok(deep);
        }
        deep = more;
    }
    Ok(deep)
}

/// Each module has more than no levels.
fn all_deep(alloc: Global, modules: &Modules) -> Result<Vec<bool>, AllocError>
    ensures { IfOk result (λ deep. deep.items ≡ map (λ m. is_deeper modules.now.modules 0 m.1) modules.now.modules) }
{
    let mut deep = Vec::with_capacity(alloc, modules.count())?;
    for _place in 0..modules.count() {
        deep.push(true)?;
    }
    Ok(deep)
}
