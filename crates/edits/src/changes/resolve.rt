//! What each edit changes.

ghost use Rattle.edits.specs.kept.Changes.{Resolves};

use crate::changes::change::Change;
use crate::changes::gates::{
    resolve_add_gate, resolve_delay, resolve_drop_gate, resolve_gate_kind, resolve_rewire,
};
use crate::changes::nets::{
    resolve_add_input, resolve_add_net, resolve_drop_net, resolve_net_kind,
};
use crate::changes::points::{resolve_horizon, resolve_stim, resolve_unstim};
use crate::edit::Edit;
use crate::fault::EditFault;
use design::Design;

/// What the edit changes; or why the design refuses it, the first cause in the order of the checks. Takes no memory.
pub fn resolve<'e>(design: &Design, edit: &'e Edit) -> Result<Change<'e>, EditFault>
    ensures { Resolves design.now edit.now result }
{
    match edit {
        Edit::AddNet { name, kind } => resolve_add_net(design, name.as_str(), *kind),
        Edit::AddInput { name } => resolve_add_input(design, name.as_str()),
        Edit::DropNet { name } => resolve_drop_net(design, name.as_str()),
        Edit::SetNetKind { name, kind } => resolve_net_kind(design, name.as_str(), *kind),
        Edit::AddGate {
            name,
            kind,
            delays,
            output,
            inputs,
        } => {
            let (name, output, inputs) = (name.as_str(), output.as_str(), inputs.as_slice());
            resolve_add_gate(design, name, *kind, *delays, output, inputs)
        }
        Edit::DropGate { name } => resolve_drop_gate(design, name.as_str()),
        Edit::SetDelay { name, delays } => resolve_delay(design, name.as_str(), *delays),
        Edit::SetGateKind { name, kind } => resolve_gate_kind(design, name.as_str(), *kind),
        Edit::Rewire {
            name,
            output,
            inputs,
        } => resolve_rewire(design, name.as_str(), output.as_str(), inputs.as_slice()),
        Edit::Stim { net, time, value } => resolve_stim(design, net.as_str(), *time, *value),
        Edit::Unstim { net, time } => resolve_unstim(design, net.as_str(), *time),
        Edit::Horizon { time } => resolve_horizon(*time),
    }
}
