//! Scopes one at a time: no others are kept beside them.

ghost use Rattle.std.specs.Prelude.{◌≡◌, IfOk, length};
ghost use Rattle.elaboration.specs.kept.Numbered.{AreDistinct, inner_alone, placed, top_alone};

use crate::scope::Scope;
use crate::slots::slots_of;
use crate::start::{Start, given_of};
use std::alloc::{AllocError, Global};
use vtext::{Module, ModuleInstance};

/// The scope at the top, alone.
pub fn top_alone<'a>(alloc: Global, entry: &'a Module) -> Result<Scope<'a>, AllocError>
    ensures { IfOk result (λ scope. scope ≡ top_alone entry.now) }
{
    let start = Start::top(alloc, entry)?;
    alone(alloc, start)
}

/// The scope of an instance of a module in a scope, alone: its nets have places from 0 on, and nothing stands before its names.
pub fn inner_alone<'a>(
    alloc: Global,
    scope: &Scope,
    instance: &ModuleInstance,
    entry: &'a Module,
) -> Result<Scope<'a>, AllocError>
    requires { AreDistinct entry.now.nets }
    ensures { IfOk result (λ made. made ≡ inner_alone scope.now instance.now entry.now) }
{
    let given = given_of(alloc, scope, instance, entry)?;
    let start = Start {
        entry,
        path: Vec::new(alloc),
        is_top: false,
        given,
    };
    alone(alloc, start)
}

/// The scope whose nets have places from 0 on.
fn alone<'a>(alloc: Global, start: Start<'a>) -> Result<Scope<'a>, AllocError>
    requires { length start.given ≡ length start.entry.nets }
    ensures { IfOk result (λ scope. scope ≡ placed 0 start.entry) }
{
    let Start {
        entry,
        path,
        is_top,
        given,
    } = start;
    let slots = slots_of(alloc, entry, is_top, given.as_slice(), 0)?;
    Ok(Scope::new(entry, path, slots.items))
}
