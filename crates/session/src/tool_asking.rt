//! Questions that tools ask about a design.

ghost use Rattle.design.specs.Keys.{netlist};
ghost use Rattle.design.specs.Netlist.{drivers_of, gate_named, net_named};
ghost use Rattle.listing.specs.Listings.{gate_names, readers_of};
ghost use Rattle.session.specs.Held.{held_as};
ghost use Rattle.session.specs.kept.Held.{AreFromPast};
ghost use Rattle.session.specs.ToolAnswers.{at_net, diff_result, gate_asked, lines_result, listing_lines, listing_result, points_asked, reach_asked, why_asked};
ghost use Rattle.session.specs.kept.ToolAnswers.{IsChange, Tells};

use crate::commands::{ChangeName, Listing};
use crate::held::Held;
use crate::replies::{Refusal, ok};
use crate::words::WordRef;
use bench::{Bench, Snapshot};
use causes::{reach, why};
use design::Design;
use devices::{Sink, Writer};
use differences::{Room, differences, differences_since};
use edits::EditFault;
use gatestep::Stepper;

/// Answers a question about what the design of a snapshot has, or tells why it is refused. It takes no memory.
pub fn answer_listing<W: Sink>(
    snapshot: &Snapshot,
    listing: &Listing<'_>,
    writer: &mut Writer<'_, W>,
) -> Result<(), Refusal>
    ensures { Tells (listing_result listing.now snapshot.now) writer.old writer.new result }
{
    match list(snapshot.design(), listing, writer) {
        Ok(()) => {
            ok(writer, snapshot.version());
            Ok(())
        }
        Err(fault) => Err(Refusal::Edit(fault)),
    }
}

/// Tells what made a change of a net, or why the question is refused. It takes no memory.
pub fn answer_why<W: Sink>(
    snapshot: &Snapshot,
    change: &ChangeName<'_>,
    writer: &mut Writer<'_, W>,
) -> Result<(), Refusal>
    ensures { Tells (lines_result snapshot.now.version (why_asked change.now snapshot.now)) writer.old writer.new result }
{
    match net_of_change(snapshot, change) {
        Ok(place) => {
            why(writer, snapshot, place, change.time);
            ok(writer, snapshot.version());
            Ok(())
        }
        Err(fault) => Err(Refusal::Edit(fault)),
    }
}

/// Tells what a change of a net made change next, or why the question is refused. It takes no memory.
pub fn answer_reach<W: Sink>(
    snapshot: &Snapshot,
    change: &ChangeName<'_>,
    writer: &mut Writer<'_, W>,
) -> Result<(), Refusal>
    ensures { Tells (lines_result snapshot.now.version (reach_asked change.now snapshot.now)) writer.old writer.new result }
{
    match net_of_change(snapshot, change) {
        Ok(place) => {
            reach(writer, snapshot, place, change.time);
            ok(writer, snapshot.version());
            Ok(())
        }
        Err(fault) => Err(Refusal::Edit(fault)),
    }
}

// The place of the net of a change, whose moment has to lie within the run.
#[tactic(auto, using(crate::proofs::ToolLemmas::no_net, crate::proofs::ToolLemmas::past, crate::proofs::ToolLemmas::net_found))]
fn net_of_change(snapshot: &Snapshot, change: &ChangeName<'_>) -> Result<usize, EditFault>
    ensures { IsChange snapshot.now change.now result }
{
    let Some(place) = snapshot.design().net_place(change.net.as_str()) else {
        return Err(EditFault::UnknownNet);
    };
    if change.time > snapshot.horizon() {
        return Err(EditFault::TimeTooLarge);
    }
    Ok(place)
}

/// Tells what differs from the snapshot that is held under a name, or that there is none. It takes no memory.
#[tactic(auto, using(crate::proofs::ToolLemmas::diff_told))]
pub fn answer_diff<W: Sink>(
    snapshot: &Snapshot,
    held: &Held,
    name: &WordRef<'_>,
    room: &mut Room,
    writer: &mut Writer<'_, W>,
) -> Result<(), Refusal>
    ensures { Tells (diff_result snapshot.now (held_as held.now name.now)) writer.old writer.new result }
{
    match held.get(name.as_str()) {
        Some(other) => {
            differences(writer, snapshot, other, room);
            ok(writer, snapshot.version());
            Ok(())
        }
        None => Err(Refusal::UnknownHold),
    }
}

/// The same of the present snapshot, where those that are held are from the bench's past. Its cost follows what changed since.
#[tactic(auto, using(crate::proofs::ToolLemmas::diff_told, crate::proofs::HeldLemmas::past_found))]
pub fn answer_diff_since<W: Sink, S: Stepper + Drop>(
    bench: &Bench<S>,
    held: &Held,
    name: &WordRef<'_>,
    room: &mut Room,
    writer: &mut Writer<'_, W>,
) -> Result<(), Refusal>
    requires { AreFromPast bench.now held.now }
    ensures { Tells (diff_result bench.now.snapshot (held_as held.now name.now)) writer.old writer.new result }
{
    match held.get(name.as_str()) {
        Some(other) => {
            differences_since(writer, bench, other, room);
            ok(writer, bench.snapshot().version());
            Ok(())
        }
        None => Err(Refusal::UnknownHold),
    }
}

// Writes the lines that are asked for, or tells why the question is refused.
fn list<W: Sink>(
    design: &Design,
    listing: &Listing<'_>,
    writer: &mut Writer<'_, W>,
) -> Result<(), EditFault>
    ensures { Tells (listing_lines (netlist design.now) listing.now) writer.old writer.new result }
{
    match listing {
        Listing::Nets => listing::nets(writer, design),
        Listing::Inputs => listing::inputs(writer, design),
        Listing::Gates => listing::gates(writer, design),
        Listing::Gate(gate) => return list_gate(design, gate, writer),
        Listing::Drivers(net) => return list_drivers(design, net, writer),
        Listing::Readers(net) => return list_readers(design, net, writer),
        Listing::Points(net) => return list_points(design, net, writer),
    }
    Ok(())
}

fn list_gate<W: Sink>(
    design: &Design,
    gate: &WordRef<'_>,
    writer: &mut Writer<'_, W>,
) -> Result<(), EditFault>
    ensures { Tells (gate_asked (gate_named (netlist design.now) gate.now)) writer.old writer.new result }
{
    let Some(place) = design.gate_place(gate.as_str()) else {
        return Err(EditFault::UnknownGate);
    };
    listing::gate(writer, design, place);
    Ok(())
}

#[tactic(auto, using(crate::proofs::ToolLemmas::net_found))]
fn list_drivers<W: Sink>(
    design: &Design,
    net: &WordRef<'_>,
    writer: &mut Writer<'_, W>,
) -> Result<(), EditFault>
    ensures { Tells (at_net (netlist design.now) net.now (gate_names (drivers_of (netlist design.now) net.now))) writer.old writer.new result }
{
    let Some(key) = design.net(net.as_str()) else {
        return Err(EditFault::UnknownNet);
    };
    listing::drivers(writer, design, key);
    Ok(())
}

#[tactic(auto, using(crate::proofs::ToolLemmas::net_found))]
fn list_readers<W: Sink>(
    design: &Design,
    net: &WordRef<'_>,
    writer: &mut Writer<'_, W>,
) -> Result<(), EditFault>
    ensures { Tells (at_net (netlist design.now) net.now (gate_names (readers_of (netlist design.now) net.now))) writer.old writer.new result }
{
    let Some(key) = design.net(net.as_str()) else {
        return Err(EditFault::UnknownNet);
    };
    listing::readers(writer, design, key);
    Ok(())
}

fn list_points<W: Sink>(
    design: &Design,
    net: &WordRef<'_>,
    writer: &mut Writer<'_, W>,
) -> Result<(), EditFault>
    ensures { Tells (points_asked (net_named (netlist design.now) net.now)) writer.old writer.new result }
{
    let Some(place) = design.net_place(net.as_str()) else {
        return Err(EditFault::UnknownNet);
    };
    let net = design.net_at(place);
    if !net.is_input() {
        return Err(EditFault::NotInput);
    }
    listing::points(writer, net);
    Ok(())
}
