//! The nets of a design, from those of its scopes.

ghost use Rattle.std.specs.Prelude.{◌≡◌, ◌++◌, IfOk, flat_map};
ghost use Rattle.design.specs.Keys.{netlist};
ghost use Rattle.vread.specs.kept.Parts.{AreFitNets, kept_nets};

use crate::new_nets::{NewNet, nets_of};
use design::Design;
use elaboration::Scope;
use std::alloc::{AllocError, Global};
use vtext::Names;

/// The design with the nets of some scopes, in their order: `count` of them, as far as is known.
pub fn with_nets(
    alloc: Global,
    design: Design,
    names: &Names,
    scopes: &[Scope],
    count: usize,
) -> Result<Design, AllocError>
    requires { AreFitNets ((netlist design).nets ++ flat_map (kept_nets names.now) scopes.now) }
    ensures { IfOk result (λ made. netlist made ≡ record (netlist design) { nets = (netlist design).nets ++ flat_map (kept_nets names.now) scopes.now }) }
{
    let nets = nets_of(alloc, names, scopes, count)?;
    with_all(design, nets)
}

/// The design with these nets, in their order.
fn with_all(design: Design, nets: Vec<NewNet>) -> Result<Design, AllocError>
    requires { AreFitNets ((netlist design).nets ++ nets.items) }
    ensures { IfOk result (λ made. netlist made ≡ record (netlist design) { nets = (netlist design).nets ++ nets.items }) }
{
    let mut made = design;
    for net in nets {
        made.push_net(net.name, net.kind, net.is_input)?;
    }
    Ok(made)
}
