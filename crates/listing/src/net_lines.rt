//! The nets of a design.

ghost use Rattle.devices.specs.Outgoing.{Adds};
ghost use Rattle.design.specs.Keys.{netlist};
ghost use Rattle.listing.specs.Listings.{inputs_of, net_lines};

use crate::lines::net_line;
use design::Design;
use devices::{Sink, Writer};

/// Writes a line `N KIND` for each net, in order.
pub fn nets<W: Sink>(writer: &mut Writer<'_, W>, design: &Design)
    ensures { Adds writer.old writer.new (net_lines (netlist design.now).nets) }
{
    for place in 0..design.net_count() {
        net_line(writer, design.net_at(place));
    }
}

/// Writes the same of the inputs alone.
pub fn inputs<W: Sink>(writer: &mut Writer<'_, W>, design: &Design)
    ensures { Adds writer.old writer.new (net_lines (inputs_of (netlist design.now))) }
{
    for place in 0..design.net_count() {
        let net = design.net_at(place);
        if net.is_input() {
            net_line(writer, net);
        }
    }
}
