//! The nets of gates, from the words of edits.

ghost use Rattle.std.specs.Prelude.{◌≡◌, true, All, IfOk, IfSome, is_some, length, map};
ghost use Rattle.std.specs.List.{list_all};
ghost use Rattle.design.specs.Keys.{connection_in, netlist};
ghost use Rattle.design.specs.kept.Keys.{IsThere};
ghost use Rattle.edits.specs.kept.Changes.{FindsWiring, Passes};
ghost use Rattle.edits.specs.Checks.{is_known, wiring_checks};
ghost use Rattle.edits.specs.Edits.{connection_of};

use crate::fault::EditFault;
use crate::pin::Pin;
use design::{Design, Inputs, NetKey, Terminal};
use std::alloc::{AllocError, Global};

/// The key of a gate's output, where its inputs are there too. `fit` says whether their number fits.
#[tactic(auto, using(crate::proofs::FoundLemmas::net_found))]
pub fn find_wiring(
    design: &Design,
    fit: bool,
    output: &str,
    inputs: &[Pin],
) -> Result<NetKey, EditFault>
    ensures { Passes (wiring_checks (netlist design.now) fit output.now inputs.now) result (FindsWiring design.now fit output.now inputs.now) }
{
    if !fit {
        return Err(EditFault::WrongArity);
    }
    match design.net(output) {
        None => Err(EditFault::UnknownNet),
        Some(_) if !are_known(design, inputs) => Err(EditFault::UnknownNet),
        Some(net) if design.net_of(net).is_input() => Err(EditFault::DrivenInput),
        Some(net) => Ok(net),
    }
}

fn are_known(design: &Design, pins: &[Pin]) -> bool
    ensures { result ≡ list_all (is_known (netlist design.now)) pins.now }
{
    pins.iter().all(|pin| terminal(design, pin).is_some())
}

/// What a gate's inputs are connected to.
#[tactic(auto, using(crate::proofs::KnownLemmas::known_at))]
pub fn terminals(alloc: Global, design: &Design, pins: &[Pin]) -> Result<Inputs, AllocError>
    requires { list_all (is_known (netlist design.now)) pins.now ≡ true }
    ensures named { IfOk result (λ terminals. map (connection_in design.now.nets) terminals.items ≡ map connection_of pins.now) }
    ensures there { IfOk result (λ terminals. All (IsThere design.now.nets) terminals.items) }
    ensures count { IfOk result (λ terminals. length terminals.items ≡ length pins.now) }
{
    let mut terminals = Inputs::new(alloc);
    for pin in pins {
        let terminal = terminal(design, pin).unwrap();
        terminals.push(terminal)?;
    }
    Ok(terminals)
}

/// What a gate's input is connected to; none where no net has the name.
#[tactic(auto, using(crate::proofs::FoundLemmas::net_found))]
fn terminal(design: &Design, pin: &Pin) -> Option<Terminal>
    ensures known { is_some result ≡ is_known (netlist design.now) pin.now }
    ensures named { IfSome result (λ terminal. connection_in design.now.nets terminal ≡ connection_of pin.now) }
    ensures there { IfSome result (IsThere design.now.nets) }
{
    match pin {
        Pin::Net(word) => match design.net(word.as_str()) {
            Some(net) => Some(Terminal::Net(net)),
            None => None,
        },
        Pin::Constant(value) => Some(Terminal::Constant(*value)),
    }
}
