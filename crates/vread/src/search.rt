//! Looking for a fault in the scopes of a design one at a time, each forgotten before the next one: a design of too many nets is not
//! listed.

ghost use Rattle.std.specs.Prelude.{◌≡◌, ◌<◌, ◌-◌, true, Some, All, IfOk, length, nat_eq, option_map, slice_index_or};
ghost use Rattle.std.specs.Map.{lookup};
ghost use Rattle.elaboration.specs.kept.Numbered.{AreDistinct, inner_alone};
ghost use Rattle.elaboration.specs.Scopes.{nets_of, scopes_of};
ghost use Rattle.elaboration.specs.kept.SoundScopes.{IsSoundScope};
ghost use Rattle.vtext.specs.Modules.{InstanceEntry};
ghost use Rattle.vtext.specs.kept.Sound.{IsSoundModule};
ghost use Rattle.vread.specs.LateFaults.{scopes_fault};
ghost use Rattle.vread.specs.kept.Searches.{AreAlike, any_below, any_scope, is_wanted, path_after};

use crate::late::is_port_wrong;
use crate::lengths::is_long_after;
use design::MAX_NETS;
use edits::EditFault;
use elaboration::laws::{scopes_alone, terminals_are_nodes};
use elaboration::{MAX_DEPTH, Scope, inner_alone, top_alone};
use std::alloc::{AllocError, Global};
use vtext::{Module, ModuleInstance, Modules, Names, PortConnection, ReadFaultKind};

/// What is looked for in scopes.
#[derive(Clone, Copy)]
pub enum Wanted {
    /// A port that is joined to a net of another rule, or tied to a constant that a gate drives.
    WrongPort,
    /// A name over the limit.
    LongName,
}

/// Why a module of too many nets at the top may not be a design: what comes before that, or that.
pub fn crowded_fault(
    alloc: Global,
    modules: &Modules,
    top: &Module,
) -> Result<ReadFaultKind, AllocError>
    requires sound { All (IsSoundModule modules.now.names) modules.now.modules }
    requires scopes { All (IsSoundScope modules.now.names) (scopes_of modules.now.names modules.now.modules top.now) }
    requires crowded { MAX_NETS < length (nets_of modules.now.names modules.now.modules top.now) }
    ensures { IfOk result (λ kind. scopes_fault modules.now.names modules.now.modules top.now ≡ Some kind) }
{
    terminals_are_nodes();
    scopes_alone();
    let wrong = any_scope(alloc, modules, Wanted::WrongPort, top)?;
    if wrong {
        return Ok(ReadFaultKind::PortKind);
    }
    let long = any_scope(alloc, modules, Wanted::LongName, top)?;
    if long {
        return Ok(ReadFaultKind::Edit(EditFault::BadName));
    }
    Ok(ReadFaultKind::Edit(EditFault::TooMany))
}

/// Whether it is in a scope of the design with this module at its top.
fn any_scope(
    alloc: Global,
    modules: &Modules,
    wanted: Wanted,
    top: &Module,
) -> Result<bool, AllocError>
    requires { All (λ m. AreDistinct m.1.nets) modules.now.modules }
    ensures { IfOk result (λ found. found ≡ any_scope modules.now.names modules.now.modules wanted top.now) }
{
    let scope = top_alone(alloc, top)?;
    let found = any_below(alloc, modules, wanted, &scope, 0, MAX_DEPTH)?;
    Ok(found)
}

/// Whether it is in a scope, whose names stand after a path of so many bytes, or in one below it, to so many levels.
fn any_below(
    alloc: Global,
    modules: &Modules,
    wanted: Wanted,
    scope: &Scope,
    path: usize,
    levels: usize,
) -> Result<bool, AllocError>
    requires { All (λ m. AreDistinct m.1.nets) modules.now.modules }
    ensures { IfOk result (λ found. found ≡ any_below modules.now.names modules.now.modules wanted levels path scope.now) }
{
    let names = modules.names();
    if is_wanted(wanted, names, scope, path) {
        return Ok(true);
    }
    if levels == 0 {
        return Ok(false);
    }
    let instances = scope.module().instances();
    for place in 0..instances.len() {
        let instance = &instances[place];
        if is_repeated(names, instances, place) {
            continue;
        }
        let Some(inner) = inner_of(alloc, modules, scope, instance)? else {
            continue;
        };
        let inner_path = path_after(names, path, instance);
        let found = any_below(alloc, modules, wanted, &inner, inner_path, levels - 1)?;
        if found {
            return Ok(true);
        }
    }
    Ok(false)
}

/// Whether it is in this scope.
fn is_wanted(wanted: Wanted, names: &Names, scope: &Scope, path: usize) -> bool
    ensures { result ≡ is_wanted names.now wanted path scope.now }
{
    match wanted {
        Wanted::WrongPort => is_port_wrong(scope),
        Wanted::LongName => is_long_after(names, scope, path),
    }
}

/// The scope of an instance in a scope, if the text has its module.
fn inner_of<'a>(
    alloc: Global,
    modules: &'a Modules,
    scope: &Scope,
    instance: &ModuleInstance,
) -> Result<Option<Scope<'a>>, AllocError>
    requires { All (λ m. AreDistinct m.1.nets) modules.now.modules }
    ensures { IfOk result (λ inner. inner ≡ option_map (inner_alone scope.now instance.now) (lookup (nat_eq instance.now.«module») modules.now.modules)) }
{
    let Some(entry) = modules.find(instance.module()) else {
        return Ok(None);
    };
    let inner = inner_alone(alloc, scope, instance, entry)?;
    Ok(Some(inner))
}

/// How many bytes the path of an instance's scope has, as far as numbers go.
fn path_after(names: &Names, path: usize, instance: &ModuleInstance) -> usize
    ensures { result ≡ path_after names.now path instance.now }
{
    path.saturating_add(names.text(instance.name()).len())
        .saturating_add(1)
}

/// Whether the instance at a place has the same scopes as the one before it, but for the bytes of their names.
fn is_repeated(names: &Names, instances: &[ModuleInstance], place: usize) -> bool
    requires { place < length instances.now }
    ensures there { result ≡ true → 0 < place }
    ensures alike { result ≡ true → (d : InstanceEntry) → AreAlike names.now (slice_index_or instances.now (place - 1) d) (slice_index_or instances.now place d) }
{
    if place == 0 {
        return false;
    }
    are_alike(names, &instances[place - 1], &instances[place])
}

/// Whether two instances are of one module, are connected alike, and have names of as many bytes.
fn are_alike(names: &Names, a: &ModuleInstance, b: &ModuleInstance) -> bool
    ensures { result ≡ true → AreAlike names.now a.now b.now }
{
    if a.module() != b.module() {
        return false;
    }
    if !are_same(a.connections(), b.connections()) {
        return false;
    }
    names.text(a.name()).len() == names.text(b.name()).len()
}

/// Whether two lists of connections are the same.
fn are_same(a: &[PortConnection], b: &[PortConnection]) -> bool
    ensures { result ≡ true → a.now ≡ b.now }
{
    a == b
}
