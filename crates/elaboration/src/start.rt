//! Scopes before their nets have places.

ghost use Rattle.std.specs.Prelude.{◌≡◌, ◌++◌, IfOk, codes, length, map, option_map};
ghost use Rattle.elaboration.specs.kept.Numbered.{AreDistinct, given_of, inner_start, ref_at, top_start};
ghost use Rattle.vtext.specs.Names.{name_at};

use crate::joints::{joints, nothing};
use crate::node::NodeRef;
use crate::scope::Scope;
use std::alloc::{AllocError, Global};
use std::marker::Model;
use vtext::{Module, ModuleInstance, Names, Terminal};

/// A scope before its nets have places.
#[derive(Drop)]
pub struct Start<'a> {
    pub entry: &'a Module,
    pub path: Vec<u8>,
    pub is_top: bool,
    /// What its connected ports are, by the places of the module's nets.
    pub given: Vec<Option<NodeRef>>,
}

impl<'a> Model for Start<'a> {
    ghost use Rattle.elaboration.specs.kept.Numbered as numbered;

    ghost Value = { numbered.Start };

    ghost view = { λ a. record { entry = a.entry.now; path = a.path.items; top = a.is_top; given = a.given.items } };
}

impl<'a> Start<'a> {
    /// The scope at the top.
    pub fn top(alloc: Global, entry: &'a Module) -> Result<Start<'a>, AllocError>
        ensures { IfOk result (λ start. start ≡ top_start entry.now) }
    {
        let given = nothing(alloc, entry.net_count())?;
        Ok(Start {
            entry,
            path: Vec::new(alloc),
            is_top: true,
            given,
        })
    }

    /// The scope of an instance of a module in a scope.
    pub fn inner(
        alloc: Global,
        names: &Names,
        scope: &Scope,
        instance: &ModuleInstance,
        entry: &'a Module,
    ) -> Result<Start<'a>, AllocError>
        requires { AreDistinct entry.now.nets }
        ensures start { IfOk result (λ start. start ≡ inner_start names.now scope.now instance.now entry.now) }
        ensures given { IfOk result (λ start. length start.given ≡ length start.entry.nets) }
    {
        let given = given_of(alloc, scope, instance, entry)?;
        let path = inner_path(alloc, names, scope, instance)?;
        Ok(Start {
            entry,
            path,
            is_top: false,
            given,
        })
    }
}

/// What the connected ports of an instance of a module in a scope are, by the places of the module's nets.
pub fn given_of(
    alloc: Global,
    scope: &Scope,
    instance: &ModuleInstance,
    entry: &Module,
) -> Result<Vec<Option<NodeRef>>, AllocError>
    requires { AreDistinct entry.now.nets }
    ensures given { IfOk result (λ given. given.items ≡ given_of scope.now instance.now entry.now) }
    ensures count { IfOk result (λ given. length given.items ≡ length entry.now.nets) }
{
    let joints = joints(alloc, entry, instance.connections())?;
    let given = nodes(alloc, scope, joints.as_slice())?;
    Ok(given)
}

/// What some terminals in a scope are.
fn nodes(
    alloc: Global,
    scope: &Scope,
    terminals: &[Option<Terminal>],
) -> Result<Vec<Option<NodeRef>>, AllocError>
    ensures { IfOk result (λ nodes. nodes.items ≡ map (option_map (ref_at scope.now)) terminals.now) }
{
    let mut nodes = Vec::with_capacity(alloc, terminals.len())?;
    for terminal in terminals {
        nodes.push(node(scope, *terminal))?;
    }
    Ok(nodes)
}

/// What a terminal in a scope is, if there is one.
fn node(scope: &Scope, terminal: Option<Terminal>) -> Option<NodeRef>
    ensures { result ≡ option_map (ref_at scope.now) terminal }
{
    let terminal = terminal?;
    Some(scope.node(terminal))
}

/// What stands before the names of nets and gates of an instance in a scope.
fn inner_path(
    alloc: Global,
    names: &Names,
    scope: &Scope,
    instance: &ModuleInstance,
) -> Result<Vec<u8>, AllocError>
    ensures { IfOk result (λ path. path.items ≡ scope.now.path ++ name_at names.now instance.now.name ++ codes ".") }
{
    let mut path = Vec::from_slice(alloc, scope.path())?;
    path.extend_from_slice(names.text(instance.name()))?;
    path.push(b'.')?;
    Ok(path)
}
