//! The stimulus of a net.

ghost use Rattle.devices.specs.Outgoing.{Adds};
ghost use Rattle.listing.specs.Listings.{change_lines};

use crate::lines::change;
use design::Net;
use devices::{Sink, Writer};

/// Writes a line `T V` for each stimulus point, in order of time.
pub fn points<W: Sink>(writer: &mut Writer<'_, W>, net: &Net)
    ensures { Adds writer.old writer.new (change_lines net.now.points) }
{
    for (time, value) in net.points() {
        change(writer, time, value);
    }
}
