//! Whether gates, and what they are connected to, are the same.

ghost use Rattle.std.specs.Prelude.{◌≡◌, map};
ghost use Rattle.std.specs.Cmp.Lexicographic.{pointwise};
ghost use Rattle.design.specs.Keys.{connection_in, entry_in, netlist};
ghost use Rattle.design.specs.kept.Keys.{IsConnected, IsThere};
ghost use Rattle.rundiff.specs.Dirty.{is_new, same_connection, same_gate};

use crate::old::old_gate;
use design::{Design, Gate, GateKey, Terminal};

/// Whether an input of a gate of the new design and one of the old design are connected to the same.
fn same_connection(old: &Design, former: Terminal, new: &Design, terminal: Terminal) -> bool
    requires there { IsThere new.now.nets terminal }
    requires there_before { IsThere old.now.nets former }
    ensures { result ≡ same_connection (connection_in new.now.nets terminal) (connection_in old.now.nets former) }
{
    match terminal {
        Terminal::Net(net) => match former {
            Terminal::Net(before) => new.name_of(net).as_str() == old.name_of(before).as_str(),
            Terminal::Constant(_) => false,
        },
        Terminal::Constant(value) => match former {
            Terminal::Net(_) => false,
            Terminal::Constant(before) => value == before,
        },
    }
}

/// Whether the inputs of a gate of the new design and of one of the old design are connected to the same.
fn same_inputs(old: &Design, former: &Gate, new: &Design, gate: &Gate) -> bool
    requires connected { IsConnected new.now.nets gate.now }
    requires connected_before { IsConnected old.now.nets former.now }
    ensures { result ≡ pointwise same_connection (map (connection_in new.now.nets) gate.now.inputs) (map (connection_in old.now.nets) former.now.inputs) }
{
    let mine = gate.inputs();
    let theirs = former.inputs();
    if mine.len() != theirs.len() {
        return false;
    }
    for i in 0..mine.len() {
        if !same_connection(old, theirs[i], new, mine[i]) {
            return false;
        }
    }
    true
}

/// Whether a gate of the new design and one of the old design are the same.
fn same_gate(old: &Design, former: &Gate, new: &Design, gate: &Gate) -> bool
    requires connected { IsConnected new.now.nets gate.now }
    requires connected_before { IsConnected old.now.nets former.now }
    ensures { result ≡ same_gate (entry_in new.now.nets gate.now) (entry_in old.now.nets former.now) }
{
    gate.name().as_str() == former.name().as_str()
        && gate.kind().is_same(former.kind())
        && gate.delays().is_same(former.delays())
        && new.name_of(gate.output()).as_str() == old.name_of(former.output()).as_str()
        && same_inputs(old, former, new, gate)
}

/// Whether the old design has no such gate as this one of the new design, which has this key.
pub fn is_new_gate(old: &Design, new: &Design, key: GateKey, gate: &Gate) -> bool
    requires connected { IsConnected new.now.nets gate.now }
    ensures { result ≡ is_new (netlist old.now) (entry_in new.now.nets gate.now) }
{
    old.lawful();
    let Some(former) = old_gate(old, key, gate.name().as_str()) else {
        return true;
    };
    !same_gate(old, old.gate_of(former), new, gate)
}
