//! What each change does.

ghost use Rattle.std.specs.Prelude.{◌≡◌, IfOk};
ghost use Rattle.design.specs.Keys.{netlist};
ghost use Rattle.edits.specs.kept.Changes.{IsReady, changed};
ghost use Rattle.edits.specs.kept.Touched.{Touches};

use crate::changes::change::Change;
use crate::changes::gates::{add_gate, drop_gate, rewire, set_delays, set_gate_kind};
use crate::changes::nets::{add_input, add_net, drop_net, set_net_kind};
use crate::changes::points::{remove_point, set_horizon, set_point};
use crate::changes::touch::Touch;
use design::Design;
use std::alloc::{AllocError, Global};

/// The design with the change, and what that touched.
pub fn carry_out(
    alloc: Global,
    design: Design,
    change: Change<'_>,
) -> Result<(Design, Touch), AllocError>
    requires { IsReady design change }
    ensures changed { IfOk result (λ made. netlist made.0 ≡ changed design change.entry) }
    ensures touched { IfOk result (Touches design) }
{
    match change {
        Change::AddNet { name, kind } => add_net(alloc, design, name, kind),
        Change::AddInput { name } => add_input(alloc, design, name),
        Change::DropNet(net) => drop_net(design, net),
        Change::SetNetKind(net, kind) => set_net_kind(design, net, kind),
        Change::AddGate {
            name,
            kind,
            delays,
            output,
            inputs,
        } => add_gate(alloc, design, name, kind, delays, output, inputs),
        Change::DropGate(gate) => drop_gate(design, gate),
        Change::SetDelays(gate, delays) => set_delays(design, gate, delays),
        Change::SetGateKind(gate, kind) => set_gate_kind(design, gate, kind),
        Change::Rewire {
            gate,
            output,
            inputs,
        } => rewire(alloc, design, gate, output, inputs),
        Change::SetPoint { net, time, value } => set_point(design, net, time, value),
        Change::RemovePoint { net, time } => remove_point(design, net, time),
        Change::Horizon(time) => Ok(set_horizon(design, time)),
    }
}
