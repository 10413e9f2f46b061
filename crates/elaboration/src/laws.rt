//! Laws of elaboration: each contract is the law, and no function gives anything.

ghost use Rattle.std.specs.Prelude.{◌≡◌, ◌≢◌, ◌^◌, ◌≤◌, ℕ, List, length, All, AllPairs, IfSome, IsSome, IsTrue, None, Some};
ghost use Rattle.design.specs.Names.{is_part};
ghost use Rattle.design.specs.Netlist.{NetEntry};
ghost use Rattle.vtext.specs.Modules.{InstanceEntry, ModuleEntry};
ghost use Rattle.vtext.specs.kept.Sound.{IsSoundModule, IsSoundNet};
ghost use Rattle.vtext.specs.declared.gate.Terminal as terminals;
ghost use Rattle.vtext.specs.declared.net.Net as nets;
ghost use Rattle.elaboration.specs.Elaborations.{elaboration_fault};
ghost use Rattle.elaboration.specs.kept.Elaborations.{IsNode, IsScope};
ghost use Rattle.elaboration.specs.FaultPlaces.{fault_place, top_place};
ghost use Rattle.lexing.specs.Lines.{line_of};
ghost use Rattle.vtext.specs.declared.fault.ReadFault as faults;
ghost use Rattle.elaboration.specs.kept.Numbered.{AreDistinct, PlacedScope, inner_alone, ref_at, top_alone};
ghost use Rattle.elaboration.specs.Scopes.{Scope, flat_names, gates_of, inner, nets_of, node_at, scopes_of, top_scope};
ghost use Rattle.elaboration.specs.Tops.{top_of};
ghost use Rattle.elaboration.specs.kept.SoundScopes.{IsSingleGate, IsSoundScope};
ghost use Rattle.elaboration.specs.Ports.{second_pass};

use crate::limits::{MAX_DEPTH, MAX_INSTANCES};
use design::laws::{parts_are_names, parts_of_joined};
use vtext::laws::bit_names_are_bits;

/// The limits of a hierarchy have these numbers.
pub fn limits()
    ensures depth { MAX_DEPTH ≡ 32 }
    ensures instances { MAX_INSTANCES ≡ 65536 }
{}

/// What a terminal is in a scope as it is kept is what it is in the design's.
#[tactic(auto, using(crate::proofs::KeptNodes::ref_ok))]
pub fn terminals_are_nodes()
    ensures { (names : List (List ℕ)) (modules : List (ℕ × ModuleEntry)) (flat : List NetEntry) (kept : PlacedScope) (scope : Scope) → IsScope names modules flat kept scope →
        (terminal : terminals.Terminal) → IsNode flat (ref_at kept terminal) (node_at names modules scope terminal) }
{}

/// A scope alone is the one of its design, but for its path and the places of its nets: among nets as many as this places do not count.
pub fn scopes_alone()
    ensures top { (names : List (List ℕ)) (modules : List (ℕ × ModuleEntry)) (flat : List NetEntry) (top : ModuleEntry) → 2 ^ 32 ≤ length flat →
        IsScope names modules flat (top_alone top) (top_scope names modules top) }
    ensures inner { (names : List (List ℕ)) (modules : List (ℕ × ModuleEntry)) (flat : List NetEntry) → 2 ^ 32 ≤ length flat →
        (kept : PlacedScope) (scope : Scope) (i : InstanceEntry) (m : ModuleEntry) → AreDistinct m.nets → IsScope names modules flat (record kept { path = scope.path }) scope →
        IsScope names modules flat (record (inner_alone kept i m) { path = (inner names modules scope i m).path }) (inner names modules scope i m) }
{}

/// The nets of a design have different names, and so have its gates.
pub fn flat_names()
    ensures nets { (names : List (List ℕ)) (modules : List (ℕ × ModuleEntry)) (top : ℕ × ModuleEntry) → All (IsSoundModule names) modules → IsSoundModule names top →
        AllPairs (λ a b. a.name ≢ b.name) (nets_of names modules top.1) }
    ensures gates { (names : List (List ℕ)) (modules : List (ℕ × ModuleEntry)) (top : ℕ × ModuleEntry) → All (IsSoundModule names) modules → IsSoundModule names top →
        AllPairs (λ a b. a.name ≢ b.name) (gates_of names modules top.1) }
{
    parts_of_joined();
    parts_are_names();
    bit_names_are_bits();
}

/// The scopes of sound modules are sound.
pub fn scopes_are_sound()
    ensures { (names : List (List ℕ)) (modules : List (ℕ × ModuleEntry)) (top : ℕ × ModuleEntry) → All (IsSoundModule names) modules → IsSoundModule names top →
        All (IsSoundScope names) (scopes_of names modules top.1) }
{
    parts_of_joined();
    parts_are_names();
}

/// Modules that have no fault have a top.
#[tactic(auto, using(crate::proofs::TopLemmas::top_there))]
pub fn faultless_has_top()
    ensures { (text : List ℕ) (modules : List (ℕ × ModuleEntry)) → elaboration_fault text modules ≡ None → IsSome (top_of modules) }
{}

/// The names of the nets that a net of a sound module is in the design are parts of names.
pub fn flat_names_are_parts()
    ensures { (names : List (List ℕ)) (net : ℕ × nets.Net) → IsSoundNet names net → All (λ name. IsTrue (is_part name)) (flat_names names net) }
{}

/// Each terminal of a gate is one net of the design, or a constant, where no instance has a fault.
pub fn gate_terminals_are_single()
    ensures { (text : List ℕ) (names : List (List ℕ)) (modules : List (ℕ × ModuleEntry)) (top : ℕ × ModuleEntry) → All (IsSoundModule names) modules →
        second_pass text modules ≡ None → top_of modules ≡ Some top →
        All (λ scope. All (IsSingleGate names modules scope) scope.entry.gates) (scopes_of names modules top.1) }
{}

/// The fault of modules lies on the line of its place; where they have none, the place is the top's word `module`.
pub fn faults_are_at_places()
    ensures lines { (text : List ℕ) (modules : List (ℕ × ModuleEntry)) (fault : faults.ReadFault) → elaboration_fault text modules ≡ Some fault →
        IfSome (fault_place modules) (λ place. fault.line ≡ line_of text place.start) }
    ensures top { (text : List ℕ) (modules : List (ℕ × ModuleEntry)) → elaboration_fault text modules ≡ None →
        (top : ℕ × ModuleEntry) → top_of modules ≡ Some top → fault_place modules ≡ Some (top_place top) }
{}
