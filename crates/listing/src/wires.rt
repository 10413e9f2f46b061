//! The gates at a net.

ghost use Rattle.std.specs.Prelude.{◌≡◌, All, IsSome};
ghost use Rattle.devices.specs.Outgoing.{Adds};
ghost use Rattle.design.specs.Keys.{name_of, netlist};
ghost use Rattle.design.specs.kept.Keys.{gate_by_key, net_by_key};
ghost use Rattle.design.specs.Netlist.{drivers_of};
ghost use Rattle.listing.specs.Listings.{gate_names, readers_of};
ghost use Rattle.listing.specs.kept.Listings.{names_at};

use crate::lines::name_line;
use design::{Design, GateKey, NetKey};
use devices::{Sink, Writer};

/// Writes the names of the gates that drive a net, in order.
pub fn drivers<W: Sink>(writer: &mut Writer<'_, W>, design: &Design, net: NetKey)
    requires { IsSome (net_by_key design.now net) }
    ensures { Adds writer.old writer.new (gate_names (drivers_of (netlist design.now) (name_of design.now.nets net))) }
{
    design.lawful();
    design.names_are_keys();
    gate_names(writer, design, design.drivers(net));
}

/// Writes the names of the gates that read a net, each once, in order.
pub fn readers<W: Sink>(writer: &mut Writer<'_, W>, design: &Design, net: NetKey)
    requires { IsSome (net_by_key design.now net) }
    ensures { Adds writer.old writer.new (gate_names (readers_of (netlist design.now) (name_of design.now.nets net))) }
{
    design.lawful();
    design.places_are_keys();
    gate_names(writer, design, design.fanout(net));
}

fn gate_names<W: Sink>(writer: &mut Writer<'_, W>, design: &Design, gates: &[GateKey])
    requires { All (λ key. IsSome (gate_by_key design.now key)) gates.now }
    ensures { Adds writer.old writer.new (names_at design.now.gates gates.now) }
{
    for gate in gates {
        name_line(writer, design.gate_of(*gate).name());
    }
}
