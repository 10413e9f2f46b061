//! How many instances there are, found without writing them out.

ghost use Rattle.std.specs.Prelude.{◌≡◌, ◌+◌, ◌<◌, ◌≤◌, ℕ, suc, IfOk, length, map, min, nat_eq, slice_index_or};
ghost use Rattle.std.specs.List.{sum_by};
ghost use Rattle.std.specs.Map.{lookup};
ghost use Rattle.std.specs.Option.{option_map_or};
ghost use Rattle.vtext.specs.Modules.{ModuleEntry};
ghost use Rattle.elaboration.specs.Levels.{has_many_instances, instance_count};

use crate::levels::{are_deeper, is_set};
use crate::limits::{MAX_DEPTH, MAX_INSTANCES};
use crate::ports::instances_at;
use std::alloc::{AllocError, Global};
use vtext::{ModuleInstance, Modules};

/// Counts go no further than one more than there may be.
const MANY: usize = MAX_INSTANCES + 1;

/// The count at a place of a list.
fn count_at(counts: &[usize], place: usize) -> usize
    ensures { result ≡ min MANY (slice_index_or counts.now place 0) }
{
    match counts.get(place) {
        Some(count) => MANY.min(*count),
        None => 0,
    }
}

/// How many instances are below an instance, where a list tells of them for each module.
fn count_below(modules: &Modules, counts: &[usize], instance: &ModuleInstance) -> usize
    ensures count { (levels : ℕ) → counts.now ≡ map (λ m. min MANY (instance_count modules.now.modules levels m.1)) modules.now.modules →
        result ≡ min MANY (option_map_or (instance_count modules.now.modules levels) (lookup (nat_eq instance.now.«module») modules.now.modules) 0) }
    ensures most { result ≤ MANY }
{
    match modules.place(instance.module()) {
        Some(place) => count_at(counts, place),
        None => 0,
    }
}

/// How many some instances are, with those below them.
fn total(modules: &Modules, counts: &[usize], instances: &[ModuleInstance]) -> usize
    ensures { (levels : ℕ) → counts.now ≡ map (λ m. min MANY (instance_count modules.now.modules levels m.1)) modules.now.modules →
        result ≡ min MANY (sum_by (λ i. 1 + option_map_or (instance_count modules.now.modules levels) (lookup (nat_eq i.«module») modules.now.modules) 0) instances.now) }
{
    let mut total = 0;
    for instance in instances {
        let below = count_below(modules, counts, instance);
        total = MANY.min(total + 1 + below);
    }
    total
}

/// How many instances are below each module, with one level more than those that a list tells of.
fn one_more(alloc: Global, modules: &Modules, counts: &[usize]) -> Result<Vec<usize>, AllocError>
    ensures { IfOk result (λ more. (levels : ℕ) → counts.now ≡ map (λ m. min MANY (instance_count modules.now.modules levels m.1)) modules.now.modules →
        more.items ≡ map (λ m. min MANY (instance_count modules.now.modules (suc levels) m.1)) modules.now.modules) }
{
    let mut more = Vec::with_capacity(alloc, modules.count())?;
    for place in 0..modules.count() {
        let instances = instances_at(modules, place);
        more.push(total(modules, counts, instances))?;
    }
    Ok(more)
}

/// No instances are below any module, to no levels.
fn no_counts(alloc: Global, modules: &Modules) -> Result<Vec<usize>, AllocError>
    ensures { IfOk result (λ counts. counts.items ≡ map (λ m. min MANY (instance_count modules.now.modules 0 m.1)) modules.now.modules) }
{
    let mut counts = Vec::with_capacity(alloc, modules.count())?;
    for _place in 0..modules.count() {
        counts.push(0)?;
    }
    Ok(counts)
}

/// How many instances are below each module, to so many levels, as far as counts go.
fn counts(alloc: Global, modules: &Modules, levels: usize) -> Result<Vec<usize>, AllocError>
    ensures { IfOk result (λ counts. counts.items ≡ map (λ m. min MANY (instance_count modules.now.modules levels m.1)) modules.now.modules) }
{
    let mut counts = no_counts(alloc, modules)?;
    for _level in 0..levels {
        let more = one_more(alloc, modules, counts.as_slice())?;
        if more.as_slice() == counts.as_slice() {
            return Ok(counts);
        }
        counts = more;
    }
    Ok(counts)
}

/// Whether the module at a place has too many levels, or too many instances below it.
pub fn has_many_instances(
    alloc: Global,
    modules: &Modules,
    place: usize,
) -> Result<bool, AllocError>
    requires { place < length modules.now.modules }
    ensures { IfOk result (λ many. (d : ℕ × ModuleEntry) → many ≡ has_many_instances modules.now.modules (slice_index_or modules.now.modules place d).1) }
{
    let deep = are_deeper(alloc, modules, MAX_DEPTH)?;
    if is_set(deep.as_slice(), place) {
        return Ok(true);
    }
    let counts = counts(alloc, modules, MAX_DEPTH)?;
    Ok(count_at(counts.as_slice(), place) > MAX_INSTANCES)
}
