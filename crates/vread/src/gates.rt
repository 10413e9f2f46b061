//! The gates of a design, from those of its scopes.

ghost use Rattle.std.specs.Prelude.{◌≡◌, ◌++◌, ◌∷◌, [], false, All, AllPairs, IfOk, IsSomeAnd, IsTrue, flat_map, length, map};
ghost use Rattle.fourstate.specs.kept.Delays.{AreDelays};
ghost use Rattle.design.specs.kept.Keys as Keys;
ghost use Rattle.design.specs.Keys.{connection_in, entry_in, name_of, netlist};
ghost use Rattle.design.specs.kept.Keys.{IsThere, net_by_key};
ghost use Rattle.design.specs.Names.{is_name};
ghost use Rattle.elaboration.specs.kept.Numbered.{ref_at};
ghost use Rattle.vtext.specs.GateNames.{gate_bytes};
ghost use Rattle.vread.specs.kept.Parts.{AreDistinctGates, AreFitGates, IsDrivable, IsFitGate, IsReadable, connection_of, driven, kept_gate, kept_gates, output_of};

use crate::names::name_in;
use crate::net_keys::key_of;
use design::{Design, Gate, Inputs, Name, NetKey, Terminal};
use elaboration::{NodeRef, Scope};
use fourstate::Delays;
use std::alloc::{AllocError, Global};
use vtext::{InstanceName, Names, gate_name};

/// The design with the gates of some scopes, in their order, after all its nets.
pub fn with_gates(
    alloc: Global,
    design: Design,
    names: &Names,
    scopes: &[Scope],
) -> Result<Design, AllocError>
    requires fit { All (AreFitGates names.now (netlist design).nets) scopes.now }
    requires distinct { AreDistinctGates ((netlist design).gates ++ flat_map (kept_gates names.now (netlist design).nets) scopes.now) }
    ensures { IfOk result (λ made. netlist made ≡ record (netlist design) { gates = (netlist design).gates ++ flat_map (kept_gates names.now (netlist design).nets) scopes.now }) }
{
    let mut made = design;
    for scope in scopes {
        made = with_scope_gates(alloc, made, names, scope)?;
    }
    Ok(made)
}

/// The design with the gates of a scope.
fn with_scope_gates(
    alloc: Global,
    design: Design,
    names: &Names,
    scope: &Scope,
) -> Result<Design, AllocError>
    requires fit { AreFitGates names.now (netlist design).nets scope.now }
    requires distinct { AreDistinctGates ((netlist design).gates ++ kept_gates names.now (netlist design).nets scope.now) }
    ensures { IfOk result (λ made. netlist made ≡ record (netlist design) { gates = (netlist design).gates ++ kept_gates names.now (netlist design).nets scope.now }) }
{
    let mut made = design;
    for gate in scope.module().gates() {
        let kept = gate_of(alloc, &made, names, scope, gate)?;
        made.push_gate(kept)?;
    }
    Ok(made)
}

/// A gate of a scope as one of a design that has its nets.
#[inline(never)]
fn gate_of(
    alloc: Global,
    design: &Design,
    names: &Names,
    scope: &Scope,
    gate: &vtext::Gate,
) -> Result<Gate, AllocError>
    requires { IsFitGate names.now (netlist design.now).nets scope.now gate.now }
    ensures entry { IfOk result (λ made. entry_in design.now.nets made ≡ kept_gate names.now (netlist design.now).nets scope.now gate.now) }
    ensures connected { IfOk result (Keys.IsConnected design.now.nets) }
{
    let name = name_of_gate(alloc, names, scope, gate)?;
    let inputs = connections(alloc, design, scope, gate.inputs())?;
    let output = output_of(design, scope.node(gate.output()));
    let delays = delays_of(gate);
    Ok(Gate::new(name, gate.kind(), delays, output, inputs))
}

/// The name of a gate.
fn name_of_gate(
    alloc: Global,
    names: &Names,
    scope: &Scope,
    gate: &vtext::Gate,
) -> Result<Name, AllocError>
    requires { IsTrue (is_name (scope.now.path ++ gate_bytes names.now gate.now)) }
    ensures { IfOk result (λ name. name ≡ scope.now.path ++ gate_bytes names.now gate.now) }
{
    if let (InstanceName::Written(name), None) = (gate.instance(), gate.part()) {
        return name_in(alloc, scope.path(), names.text(name));
    }
    let bytes = gate_name(alloc, names, gate)?;
    name_in(alloc, scope.path(), bytes.as_slice())
}

fn delays_of(gate: &vtext::Gate) -> Delays
    requires { AreDelays gate.now.delays }
    ensures { result ≡ gate.now.delays }
{
    match Delays::from_times(gate.delays()) {
        Some(delays) => delays,
        None => unreachable!(),
    }
}

/// The key of the net that a gate drives.
fn output_of(design: &Design, node: NodeRef) -> NetKey
    requires { IsDrivable (netlist design.now).nets node }
    ensures net { IsSomeAnd (net_by_key design.now result) (λ net. net.is_input ≡ false) }
    ensures name { name_of design.now.nets result ≡ output_of (netlist design.now).nets node }
{
    match node {
        NodeRef::Nets(run) => key_of(design, run),
        NodeRef::Tied(_) => unreachable!(),
    }
}

/// What the inputs of a gate are connected to.
fn connections(
    alloc: Global,
    design: &Design,
    scope: &Scope,
    inputs: &[vtext::Terminal],
) -> Result<Inputs, AllocError>
    requires { All (λ input. IsReadable (netlist design.now).nets (ref_at scope.now input)) inputs.now }
    ensures named { IfOk result (λ made. map (connection_in design.now.nets) made.items ≡ map (λ input. connection_of (netlist design.now).nets (ref_at scope.now input)) inputs.now) }
    ensures there { IfOk result (λ made. All (IsThere design.now.nets) made.items) }
    ensures count { IfOk result (λ made. length made.items ≡ length inputs.now) }
{
    let mut made = Inputs::with_capacity(alloc, inputs.len())?;
    for input in inputs {
        let connection = connection(design, scope.node(*input));
        made.push(connection)?;
    }
    Ok(made)
}

fn connection(design: &Design, node: NodeRef) -> Terminal
    requires { IsReadable (netlist design.now).nets node }
    ensures named { connection_in design.now.nets result ≡ connection_of (netlist design.now).nets node }
    ensures there { IsThere design.now.nets result }
{
    match node {
        NodeRef::Nets(run) => Terminal::Net(key_of(design, run)),
        NodeRef::Tied(value) => Terminal::Constant(value),
    }
}
