//! Edits of gates.

ghost use Rattle.std.specs.Prelude.{◌≡◌, ◌∷◌, [], IfOk, IsSome, IsSomeAnd, IsTrue, length, map};
ghost use Rattle.fourstate.specs.Gates.{takes_inputs};
ghost use Rattle.design.specs.Keys.{name_of, netlist};
ghost use Rattle.design.specs.kept.Keys.{gate_by_key};
ghost use Rattle.design.specs.Netlist.{with_delays, with_gate, with_gate_kind, with_wiring, without_gate};
ghost use Rattle.edits.specs.kept.Changes.{FindsGate, Passes, Resolves, RewiresGate, TakesGate, TakesGateName, gate_name, gate_of_names};
ghost use Rattle.edits.specs.Checks.{delay_checks, gate_there, is_off_misplaced, new_gate_checks};
ghost use Rattle.edits.specs.Edits.{connection_of};
ghost use Rattle.edits.specs.kept.Touched.{Touches};
ghost use Rattle.edits.specs.declared.edit.Edit.TheVariants as edit;

use crate::changes::change::Change;
use crate::changes::touch::Touch;
use crate::changes::wiring::{find_wiring, terminals};
use crate::fault::EditFault;
use crate::pin::Pin;
use design::{Design, Gate, GateKey, MAX_GATES, Name, NetKey};
use fourstate::{DelayTimes, Delays, GateKind, fits, takes_off};
use std::alloc::{AllocError, Global};

pub fn resolve_add_gate<'e>(
    design: &Design,
    name: &'e str,
    kind: GateKind,
    delays: DelayTimes,
    output: &str,
    inputs: &'e [Pin],
) -> Result<Change<'e>, EditFault>
    ensures { Resolves design.now (edit.AddGate name.now kind delays output.now inputs.now) result }
{
    check_new_gate(design, name)?;
    let delays = check_delays(kind, delays)?;
    let output = find_wiring(design, fits(kind, inputs.len()), output, inputs)?;
    Ok(Change::AddGate {
        name,
        kind,
        delays,
        output,
        inputs,
    })
}

/// Whether a gate of this name may be added.
fn check_new_gate(design: &Design, name: &str) -> Result<(), EditFault>
    ensures { Passes (new_gate_checks (netlist design.now) name.now) result (λ _. TakesGateName (netlist design.now) name.now) }
{
    if !Name::is_valid(name) {
        Err(EditFault::BadName)
    } else if design.has_gate(name) {
        Err(EditFault::DuplicateName)
    } else if design.gate_count() >= MAX_GATES {
        Err(EditFault::TooMany)
    } else {
        Ok(())
    }
}

/// The delays of these times, where a gate of the kind may have them.
fn check_delays(kind: GateKind, times: DelayTimes) -> Result<Delays, EditFault>
    ensures { Passes (delay_checks kind times) result (λ delays. delays ≡ times) }
{
    match Delays::from_times(times) {
        Some(delays) if is_off_misplaced(kind, delays) => Err(EditFault::NoTurnOff),
        Some(delays) => Ok(delays),
        None if times.has_zero() => Err(EditFault::ZeroDelay),
        None => Err(EditFault::DelayTooLarge),
    }
}

/// Whether a turn-off delay is given for a kind that takes none.
fn is_off_misplaced(kind: GateKind, delays: Delays) -> bool
    ensures { result ≡ is_off_misplaced kind delays }
{
    delays.has_off() && !takes_off(kind)
}

pub fn add_gate(
    alloc: Global,
    design: Design,
    name: &str,
    kind: GateKind,
    delays: Delays,
    output: NetKey,
    inputs: &[Pin],
) -> Result<(Design, Touch), AllocError>
    requires { TakesGate design name.now kind output inputs.now }
    ensures by_name { IfOk result (λ made. netlist made.0 ≡ with_gate (netlist design) (gate_of_names design name.now kind delays output inputs.now)) }
    ensures touched { IfOk result (Touches design) }
{
    let name = Name::new(alloc, name)?;
    let inputs = terminals(alloc, &design, inputs)?;
    let gate = Gate::new(name, kind, delays, output, inputs);
    let (new, key) = design.add_gate(gate)?;
    Ok((new, Touch::Driver { gate: key, output }))
}

pub fn resolve_drop_gate<'e>(design: &Design, name: &str) -> Result<Change<'e>, EditFault>
    ensures { Resolves design.now (edit.DropGate name.now) result }
{
    let gate = find_gate(design, name)?;
    Ok(Change::DropGate(gate))
}

pub fn drop_gate(design: Design, gate: GateKey) -> Result<(Design, Touch), AllocError>
    requires { IsSome (gate_by_key design gate) }
    ensures by_name { IfOk result (λ made. netlist made.0 ≡ without_gate (netlist design) (gate_name design gate)) }
    ensures touched { IfOk result (Touches design) }
{
    design.lawful();
    let output = design.gate_of(gate).output();
    let new = design.remove_gate(gate)?;
    Ok((new, Touch::Driver { gate, output }))
}

#[tactic(auto, using(crate::proofs::ChangeLemmas::kind_named_of))]
pub fn resolve_delay<'e>(
    design: &Design,
    name: &str,
    delays: DelayTimes,
) -> Result<Change<'e>, EditFault>
    ensures { Resolves design.now (edit.SetDelay name.now delays) result }
{
    let gate = find_gate(design, name)?;
    let delays = check_delays(design.gate_of(gate).kind(), delays)?;
    Ok(Change::SetDelays(gate, delays))
}

pub fn set_delays(
    design: Design,
    gate: GateKey,
    delays: Delays,
) -> Result<(Design, Touch), AllocError>
    requires { IsSome (gate_by_key design gate) }
    ensures by_name { IfOk result (λ made. netlist made.0 ≡ with_delays (netlist design) (gate_name design gate) delays) }
    ensures touched { IfOk result (Touches design) }
{
    design.lawful();
    let new = design.set_delays(gate, delays)?;
    Ok((new, Touch::Gate(gate)))
}

#[tactic(auto, using(crate::proofs::ChangeLemmas::keeps_off_of, crate::proofs::ChangeLemmas::kind_fits_of))]
pub fn resolve_gate_kind<'e>(
    design: &Design,
    name: &str,
    kind: GateKind,
) -> Result<Change<'e>, EditFault>
    ensures { Resolves design.now (edit.SetGateKind name.now kind) result }
{
    let gate = find_gate(design, name)?;
    let found = design.gate_of(gate);
    if !fits(kind, found.inputs().len()) {
        Err(EditFault::WrongArity)
    } else if is_off_misplaced(kind, found.delays()) {
        Err(EditFault::NoTurnOff)
    } else {
        Ok(Change::SetGateKind(gate, kind))
    }
}

pub fn set_gate_kind(
    design: Design,
    gate: GateKey,
    kind: GateKind,
) -> Result<(Design, Touch), AllocError>
    requires { IsSomeAnd (gate_by_key design gate) (λ g. IsTrue (takes_inputs kind (length g.inputs))) }
    ensures by_name { IfOk result (λ made. netlist made.0 ≡ with_gate_kind (netlist design) (gate_name design gate) kind) }
    ensures touched { IfOk result (Touches design) }
{
    design.lawful();
    let new = design.set_gate_kind(gate, kind)?;
    Ok((new, Touch::Gate(gate)))
}

#[tactic(auto, using(crate::proofs::ChangeLemmas::kind_named_of))]
pub fn resolve_rewire<'e>(
    design: &Design,
    name: &str,
    output: &str,
    inputs: &'e [Pin],
) -> Result<Change<'e>, EditFault>
    ensures { Resolves design.now (edit.Rewire name.now output.now inputs.now) result }
{
    let gate = find_gate(design, name)?;
    let fit = fits(design.gate_of(gate).kind(), inputs.len());
    let output = find_wiring(design, fit, output, inputs)?;
    Ok(Change::Rewire {
        gate,
        output,
        inputs,
    })
}

/// The key of the gate of a name.
fn find_gate(design: &Design, name: &str) -> Result<GateKey, EditFault>
    ensures { Passes (gate_there (netlist design.now) name.now ∷ []) result (FindsGate design.now name.now) }
{
    match design.gate(name) {
        Some(gate) => Ok(gate),
        None => Err(EditFault::UnknownGate),
    }
}

pub fn rewire(
    alloc: Global,
    design: Design,
    gate: GateKey,
    output: NetKey,
    inputs: &[Pin],
) -> Result<(Design, Touch), AllocError>
    requires { RewiresGate design gate output inputs.now }
    ensures by_name { IfOk result (λ made. netlist made.0 ≡ with_wiring (netlist design) (gate_name design gate) (name_of design.nets output) (map connection_of inputs.now)) }
    ensures touched { IfOk result (Touches design) }
{
    design.lawful();
    let from = design.gate_of(gate).output();
    let inputs = terminals(alloc, &design, inputs)?;
    let new = design.rewire(gate, output, inputs)?;
    let to = output;
    Ok((new, Touch::Rewired { gate, from, to }))
}
