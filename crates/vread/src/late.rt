//! The fourth pass: why the scopes of the module at the top may not be a design.

ghost use Rattle.std.specs.Prelude.{◌≡◌, ◌&&◌, nat_lt};
ghost use Rattle.std.specs.List.{list_any};
ghost use Rattle.vread.specs.kept.Parts.{drives_constant, drives_input, gate_count, is_input_driven, is_long_named, is_port_wrong, kept_fault};

use crate::joints::{is_input, is_misjoined, is_tied};
use crate::lengths::is_long_named;
use design::MAX_GATES;
use edits::EditFault;
use elaboration::{Elaboration, Scope};
use vtext::{Gate, Names, ReadFaultKind};

/// Why the scopes of a design of not too many nets are no design; none where they are one.
pub fn scopes_fault(names: &Names, design: &Elaboration) -> Option<ReadFaultKind>
    ensures { result ≡ kept_fault names.now design.now }
{
    let scopes = design.scopes();
    if are_ports_wrong(scopes) {
        return Some(ReadFaultKind::PortKind);
    }
    if are_long_named(names, scopes) {
        return Some(ReadFaultKind::Edit(EditFault::BadName));
    }
    if gate_count(scopes) > MAX_GATES {
        return Some(ReadFaultKind::Edit(EditFault::TooMany));
    }
    if are_inputs_driven(scopes) {
        return Some(ReadFaultKind::Edit(EditFault::DrivenInput));
    }
    None
}

/// Whether a port of one of the scopes is joined to a net of another rule, or is a constant that a gate drives.
fn are_ports_wrong(scopes: &[Scope]) -> bool
    ensures { result ≡ list_any is_port_wrong scopes.now }
{
    scopes.iter().any(|scope| is_port_wrong(scope))
}

/// Whether one of the scopes has a name over the limit.
fn are_long_named(names: &Names, scopes: &[Scope]) -> bool
    ensures { result ≡ list_any (is_long_named names.now) scopes.now }
{
    scopes.iter().any(|scope| is_long_named(names, scope))
}

/// Whether a gate of one of the scopes drives an input of the design.
fn are_inputs_driven(scopes: &[Scope]) -> bool
    ensures { result ≡ list_any is_input_driven scopes.now }
{
    scopes.iter().any(|scope| is_input_driven(scope))
}

/// How many gates there are, as far as numbers go.
fn gate_count(scopes: &[Scope]) -> usize
    ensures { result ≡ gate_count scopes.now }
{
    let mut count = 0usize;
    for scope in scopes {
        count = count.saturating_add(scope.module().gates().len());
    }
    count
}

/// Whether a port is joined to a net of another rule, or a gate drives a port that is tied to a constant.
pub fn is_port_wrong(scope: &Scope) -> bool
    ensures { result ≡ is_port_wrong scope.now }
{
    is_misjoined(scope) || drive_constants(scope)
}

fn drive_constants(scope: &Scope) -> bool
    ensures { result ≡ list_any (drives_constant scope.now) scope.now.entry.gates }
{
    scope
        .module()
        .gates()
        .iter()
        .any(|gate| drives_constant(scope, gate))
}

fn drives_constant(scope: &Scope, gate: &Gate) -> bool
    ensures { result ≡ drives_constant scope.now gate.now }
{
    is_tied(scope.node(gate.output()))
}

/// Whether one of the gates drives an input of the design.
fn is_input_driven(scope: &Scope) -> bool
    ensures { result ≡ is_input_driven scope.now }
{
    scope
        .module()
        .gates()
        .iter()
        .any(|gate| drives_input(scope, gate))
}

/// Whether a gate drives an input of the design.
pub fn drives_input(scope: &Scope, gate: &Gate) -> bool
    ensures { result ≡ drives_input scope.now gate.now }
{
    is_input(scope.node(gate.output()))
}
