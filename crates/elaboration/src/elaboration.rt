//! The scopes of the design that the modules of a text make, or the modules' fault.

ghost use Rattle.std.specs.Prelude.{◌≡◌, ◌⊎◌, ◌-◌, ◌^◌, ◌<◌, ◌≤◌, ℕ, List, None, Some, All, IfErr, IfOk, IfSome, length, min};
ghost use Rattle.elaboration.specs.Elaborations.{elaboration_fault};
ghost use Rattle.elaboration.specs.kept.Elaborations.{IsElaboration};
ghost use Rattle.elaboration.specs.Tops.{top_of};
ghost use Rattle.elaboration.specs.kept.Numbered.{AreDistinct, kept_scopes};
ghost use Rattle.elaboration.specs.Scopes.{nets_of};
ghost use Rattle.vtext.specs.ReadFaults.{out_of_memory};
ghost use Rattle.vtext.specs.kept.Sound.{IsSoundModule};

use crate::counts::has_many_instances;
use crate::limits::MAX_DEPTH;
use crate::lines::fault_at;
use crate::ports::second_pass;
use crate::rings::at;
use crate::scope::Scope;
use crate::scopes::Scopes;
use crate::start::Start;
use crate::tops::top_place;
use edits::EditFault;
use std::alloc::{AllocError, Global};
use std::marker::Model;
use vtext::{Module, Modules, ReadFault, ReadFaultKind};

/// The module that is the design.
#[derive(Drop)]
pub struct Top<'a> {
    name: u32,
    entry: &'a Module,
}

impl<'a> Model for Top<'a> {
    ghost use Rattle.std.specs.Prelude.{ℕ};
    ghost use Rattle.vtext.specs.Modules.{ModuleEntry};

    ghost Value = { ℕ × ModuleEntry };

    ghost view = { λ a. (a.name, a.entry.now) };
}

impl<'a> Top<'a> {
    /// The module.
    pub fn module(&self) -> &'a Module
        ensures { result.now ≡ self.now.1 }
    {
        self.entry
    }

    /// Where its word `module` begins in the text, from 0.
    pub fn start(&self) -> u32
        ensures { result ≡ self.now.1.start }
    {
        self.module().start()
    }
}

/// The design that modules make: the module at its top, and its scopes in order. An instance comes before those in it, and
/// these before the next instance.
#[derive(Drop)]
pub struct Elaboration<'a> {
    name: u32,
    entry: &'a Module,
    scopes: Scopes<'a>,
}

impl<'a> Model for Elaboration<'a> {
    ghost use Rattle.elaboration.specs.kept.Elaborations.{Elaborated};

    ghost Value = { Elaborated };

    ghost view = { λ a. record { top = (a.name, a.entry.now); scopes = a.scopes.list; net_count = a.scopes.count } };
}

impl<'a> Elaboration<'a> {
    /// The name of the module at the top, by its number.
    pub fn top(&self) -> u32
        ensures { result ≡ self.now.top.0 }
    {
        self.name
    }

    /// Where the word `module` of the module at the top begins in the text, from 0.
    pub fn start(&self) -> u32
        ensures { result ≡ self.now.top.1.start }
    {
        self.entry.start()
    }

    /// How many nets the design has, as far as numbers go.
    pub fn net_count(&self) -> usize
        ensures { result ≡ self.now.net_count }
    {
        self.scopes.count() as usize
    }

    /// The scopes in order, the top first.
    pub fn scopes(&self) -> &[Scope<'a>]
        ensures { result.now ≡ self.now.scopes }
    {
        self.scopes.list()
    }
}

/// The module that is the design, or the fault of the modules: the first one of instances, of modules together, and of levels and
/// numbers of instances.
pub fn find_top<'a>(alloc: Global, text: &[u8], modules: &'a Modules) -> Result<Top<'a>, ReadFault>
    ensures top { IfOk result (λ top. top_of modules.now.modules ≡ Some top) }
    ensures ok { IfOk result (λ _. elaboration_fault text.now modules.now.modules ≡ None) }
    ensures err { IfErr result (λ fault. (fault ≡ out_of_memory) ⊎ (elaboration_fault text.now modules.now.modules ≡ Some fault)) }
{
    if let Some(fault) = second_pass(alloc, text, modules)? {
        return Err(fault);
    }
    let place = top_place(alloc, text, modules)?;
    let (name, entry) = at(modules, place);
    if has_many_instances(alloc, modules, place)? {
        return Err(fault_at(text, entry.start(), ReadFaultKind::Edit(EditFault::TooMany)));
    }
    Ok(Top { name, entry })
}

/// The scopes of a design with this module at its top; not all of them where more nets than `most` come with them.
fn scopes_of<'a>(
    alloc: Global,
    modules: &'a Modules,
    entry: &'a Module,
    most: u32,
) -> Result<Scopes<'a>, AllocError>
    requires { All (λ m. AreDistinct m.1.nets) modules.now.modules }
    ensures few { IfOk result (λ scopes. scopes.count ≤ most → scopes ≡ kept_scopes modules.now.names modules.now.modules entry.now) }
    ensures many { IfOk result (λ scopes. most < scopes.count → most < (kept_scopes modules.now.names modules.now.modules entry.now).count) }
{
    let start = Start::top(alloc, entry)?;
    let mut scopes = Scopes::new(alloc);
    scopes.add_all(alloc, modules, start, MAX_DEPTH, most)?;
    Ok(scopes)
}

/// The design with this module at its top; none where more nets than `most` come with its scopes: then not all are listed.
pub fn design_within<'a>(
    alloc: Global,
    modules: &'a Modules,
    top: &Top<'a>,
    most: u32,
) -> Result<Option<Elaboration<'a>>, AllocError>
    requires sound { All (IsSoundModule modules.now.names) modules.now.modules }
    requires top { top_of modules.now.modules ≡ Some top.now }
    ensures whole { IfOk result (λ made. IfSome made (λ design. (text : List ℕ) → elaboration_fault text modules.now.modules ≡ None → IsElaboration text modules.now design)) }
    ensures top { IfOk result (λ made. IfSome made (λ design. design.top ≡ top.now)) }
    ensures few { IfOk result (λ made. IfSome made (λ design. design.net_count ≤ most)) }
    ensures many { IfOk result (λ made. made ≡ None → most < min (length (nets_of modules.now.names modules.now.modules top.now.1)) (2 ^ 32 - 1)) }
{
    let scopes = scopes_of(alloc, modules, top.entry, most)?;
    if scopes.count() > most {
        return Ok(None);
    }
    Ok(Some(Elaboration {
        name: top.name,
        entry: top.entry,
        scopes,
    }))
}
