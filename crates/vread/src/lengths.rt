//! How long names are, found without making them.

ghost use Rattle.std.specs.Prelude.{◌≡◌, ◌&&◌, ◌+◌, ◌<◌, ◌≤◌, ◌^◌, length, nat_lt};
ghost use Rattle.std.specs.Fmt.{decimal};
ghost use Rattle.std.specs.List.{list_any};
ghost use Rattle.std.specs.Option.{option_map_or};
ghost use Rattle.elaboration.specs.kept.Numbered.{is_own_slot};
ghost use Rattle.vtext.specs.Names.{name_at};
ghost use Rattle.vtext.specs.GateNames.{gate_bytes, instance_bytes, numbered};
ghost use Rattle.vread.specs.kept.Parts.{any_slot, bracketed_length, is_long, is_long_after, is_long_gate, is_long_named, is_long_net, longest};

use design::MAX_NAME;
use elaboration::{Scope, Slot};
use vtext::{Gate, InstanceName, Names, Net, Range};

/// Whether a net that comes with a scope, or a gate of it, has a name over the limit.
pub fn is_long_named(names: &Names, scope: &Scope) -> bool
    ensures { result ≡ is_long_named names.now scope.now }
{
    is_long_after(names, scope, scope.path().len())
}

/// Whether one has, where names in the scope stand after a path of so many bytes.
pub fn is_long_after(names: &Names, scope: &Scope, path: usize) -> bool
    ensures { result ≡ is_long_after names.now path scope.now }
{
    are_long_nets(names, scope, path) || are_long_gates(names, scope, path)
}

fn are_long_nets(names: &Names, scope: &Scope, path: usize) -> bool
    ensures { result ≡ any_slot (is_long_net names.now path) scope.now.slots scope.now.entry.nets }
{
    let slots = scope.slots();
    let entry = scope.module();
    for place in 0..slots.len() {
        let Some((name, net)) = entry.net_at(place) else {
            return false;
        };
        if is_long_net(names, path, slots[place], name, net) {
            return true;
        }
    }
    false
}

fn is_long_net(names: &Names, path: usize, slot: Slot, name: u32, net: Net) -> bool
    ensures { result ≡ (is_own_slot slot && is_long path (longest names.now (name, net))) }
{
    slot.is_own() && is_long(path, longest(names, name, net.range))
}

/// How many bytes the longest name of a net, or of the bits of a vector, has.
fn longest(names: &Names, name: u32, range: Option<Range>) -> usize
    ensures { result ≡ length (name_at names.now name) + option_map_or bracketed_length range 0 }
{
    let base = names.text(name).len();
    match range {
        Some(range) => base + bracketed_length(range),
        None => base,
    }
}

/// How many bytes the longest index of a range has, with its brackets.
fn bracketed_length(range: Range) -> usize
    ensures value { result ≡ bracketed_length range }
    ensures most { result ≤ 22 }
{
    2 + digit_count(range.left.max(range.right) as u64)
}

fn are_long_gates(names: &Names, scope: &Scope, path: usize) -> bool
    ensures { result ≡ list_any (is_long_gate names.now path) scope.now.entry.gates }
{
    scope
        .module()
        .gates()
        .iter()
        .any(|gate| is_long_gate(names, path, gate))
}

fn is_long_gate(names: &Names, path: usize, gate: &Gate) -> bool
    ensures { result ≡ is_long_gate names.now path gate.now }
{
    is_long(path, gate_name_length(names, gate))
}

/// Whether a name of so many bytes, after a path of so many, is over its limit.
fn is_long(path: usize, bytes: usize) -> bool
    ensures { result ≡ nat_lt MAX_NAME (path + bytes) }
{
    path.saturating_add(bytes) > MAX_NAME
}

/// How many bytes the name of a gate has.
fn gate_name_length(names: &Names, gate: &Gate) -> usize
    ensures { result ≡ length (gate_bytes names.now gate.now) }
{
    let base = instance_length(names, gate.instance());
    match gate.part() {
        Some(part) => base + numbered_length(part as u64),
        None => base,
    }
}

fn instance_length(names: &Names, instance: InstanceName) -> usize
    ensures value { result ≡ length (instance_bytes names.now instance) }
    ensures most { result < 2 ^ 63 }
{
    match instance {
        InstanceName::Written(name) => names.text(name).len(),
        InstanceName::Unnamed(number) => numbered_length(number),
    }
}

// How many bytes a dollar sign and a number have.
fn numbered_length(number: u64) -> usize
    ensures value { result ≡ length (numbered number) }
    ensures most { result ≤ 21 }
{
    1 + digit_count(number)
}

fn digit_count(number: u64) -> usize
    ensures value { result ≡ length (decimal number) }
    ensures most { result ≤ 20 }
{
    let mut left = number;
    let mut count = 1;
    'digits: while left >= 10 {
        left /= 10;
        count += 1;
    }
    count
}
