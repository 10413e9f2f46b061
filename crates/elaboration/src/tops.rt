//! The third pass: the modules of a text together (IEEE 1364-2005, 12.1.1).

ghost use Rattle.std.specs.Prelude.{◌≡◌, ◌+◌, ◌-◌, ◌^◌, ◌<◌, ◌⊎◌, ℕ, [], ◌∷◌, IfErr, IfOk, IfSome, MatchOption, None, Some, drop, length, nat_eq, option_map, slice_get, slice_index_or};
ghost use Rattle.std.specs.List.{filter, find, list_any};
ghost use Rattle.indexmap.specs.IndexSet.{contains};
ghost use Rattle.vtext.specs.Modules.{ModuleEntry};
ghost use Rattle.vtext.specs.declared.fault.ReadFaultKind.TheVariants.{Recursive};
ghost use Rattle.elaboration.specs.Tops.{no_top, third_pass, tops_fault};
ghost use Rattle.elaboration.specs.Ports.{fault_at};
ghost use Rattle.elaboration.specs.Tops.{instantiates, is_recursive, is_top, top_of, tops_of};
ghost use Rattle.vtext.specs.ReadFaults.{out_of_memory};

use crate::lines::fault_at;
use crate::ports::instances_at;
use crate::ranks::Ranks;
use crate::rings::{add_modules, at, is_recursive};
use indexmap::IndexSet;
use std::alloc::{AllocError, Global};
use vtext::{Modules, ReadFault, ReadFaultKind};

/// There is no module.
fn no_top() -> ReadFault
    ensures { result ≡ no_top }
{
    ReadFault {
        line: 1,
        kind: ReadFaultKind::NoTop,
    }
}

/// The names of the modules that have instances.
pub fn instantiated(alloc: Global, modules: &Modules) -> Result<IndexSet<u32>, AllocError>
    ensures { IfOk result (λ names. (name : ℕ) → contains nat_eq names name ≡ list_any (λ m. instantiates m.1 name) modules.now.modules) }
{
    let mut names = IndexSet::<u32>::new(alloc);
    for place in 0..modules.count() {
        add_modules(&mut names, instances_at(modules, place))?;
    }
    Ok(names)
}

/// The first module that is among its own instances, or theirs, and so on.
fn first_recursive(
    alloc: Global,
    text: &[u8],
    modules: &Modules,
) -> Result<Option<ReadFault>, AllocError>
    ensures { IfOk result (λ fault. fault ≡ option_map (λ m. fault_at text.now m.1.start Recursive) (find (is_recursive modules.now.modules) modules.now.modules)) }
{
    let ranks = Ranks::of(alloc, modules)?;
    for place in 0..modules.count() {
        let (name, entry) = at(modules, place);
        if is_recursive(alloc, modules, &ranks, name)? {
            return Ok(Some(fault_at(text, entry.start(), ReadFaultKind::Recursive)));
        }
    }
    Ok(None)
}

/// The first module from a place on that no module has an instance of, by its place, where a set has the names of those that do.
pub fn next_top(modules: &Modules, names: &IndexSet<u32>, from: usize) -> Option<usize>
    ensures within { IfSome result (λ place. place < length modules.now.modules) }
    ensures few { IfSome result (λ place. place < 2 ^ 64 - 1) }
    ensures tops { ((name : ℕ) → contains nat_eq names.now name ≡ list_any (λ m. instantiates m.1 name) modules.now.modules) →
        MatchOption result (filter (is_top modules.now.modules) (drop from modules.now.modules) ≡ [])
        (λ place. (d : ℕ × ModuleEntry) → filter (is_top modules.now.modules) (drop from modules.now.modules)
        ≡ slice_index_or modules.now.modules place d ∷ filter (is_top modules.now.modules) (drop (place + 1) modules.now.modules)) }
{
    for place in from..modules.count() {
        let (name, _) = at(modules, place);
        if !names.contains(&name) {
            return Some(place);
        }
    }
    None
}

/// The place of the one module that no module has an instance of, or why there is not one.
fn one_top(text: &[u8], modules: &Modules, names: &IndexSet<u32>) -> Result<usize, ReadFault>
    ensures top { ((name : ℕ) → contains nat_eq names.now name ≡ list_any (λ m. instantiates m.1 name) modules.now.modules) →
        IfOk result (λ place. slice_get modules.now.modules place ≡ top_of modules.now.modules) }
    ensures there { IfOk result (λ place. place < length modules.now.modules) }
    ensures ok { ((name : ℕ) → contains nat_eq names.now name ≡ list_any (λ m. instantiates m.1 name) modules.now.modules) →
        IfOk result (λ _. tops_fault text.now (tops_of modules.now.modules) ≡ None) }
    ensures err { ((name : ℕ) → contains nat_eq names.now name ≡ list_any (λ m. instantiates m.1 name) modules.now.modules) →
        IfErr result (λ fault. tops_fault text.now (tops_of modules.now.modules) ≡ Some fault) }
{
    let Some(first) = next_top(modules, names, 0) else {
        return Err(no_top());
    };
    match next_top(modules, names, first + 1) {
        Some(second) => {
            let (_, entry) = at(modules, second);
            Err(fault_at(text, entry.start(), ReadFaultKind::ManyTops))
        }
        None => Ok(first),
    }
}

/// The place of the module that is the design, or the fault of the modules together.
pub fn top_place(alloc: Global, text: &[u8], modules: &Modules) -> Result<usize, ReadFault>
    ensures there { IfOk result (λ place. place < length modules.now.modules) }
    ensures top { IfOk result (λ place. slice_get modules.now.modules place ≡ top_of modules.now.modules) }
    ensures ok { IfOk result (λ _. third_pass text.now modules.now.modules ≡ None) }
    ensures err { IfErr result (λ fault. (fault ≡ out_of_memory) ⊎ (third_pass text.now modules.now.modules ≡ Some fault)) }
{
    if let Some(fault) = first_recursive(alloc, text, modules)? {
        return Err(fault);
    }
    let names = instantiated(alloc, modules)?;
    one_top(text, modules, &names)
}
