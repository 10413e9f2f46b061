//! Edits of small designs, worked out by hand.

ghost use Rattle.std.specs.Prelude.{All};
ghost use Rattle.design.specs.kept.Keys.{IsThere};

use super::{
    add_input, add_net, add_reader, check_counts, check_gate, check_lists, check_net,
    check_no_gate, check_no_net, check_points, check_stimulus, copy_of, empty, net_driven, net_key,
    nets_read, set_point,
};
use crate::compare::equal;
use design::{Design, GateKey, Inputs, NetKey};
use fourstate::{Delays, GateKind, NetKind, Value, delay, fits};
use std::alloc::Global;
use std::process::Abort;

/// Inputs a and b, a net y, and the buffers g, h and i from a to y, with their keys.
fn three_readers(rt: &impl Abort, alloc: Global) -> (Design, [GateKey; 3]) {
    let design = empty(rt, alloc);
    let (design, _) = add_input(rt, alloc, design, "a");
    let (design, _) = add_input(rt, alloc, design, "b");
    let (design, _) = add_net(rt, alloc, design, "y");
    let (design, g) = add_reader(rt, alloc, design, "g", "a");
    let (design, h) = add_reader(rt, alloc, design, "h", "a");
    let (design, i) = add_reader(rt, alloc, design, "i", "a");
    (design, [g, h, i])
}

pub fn rewire(
    rt: &impl Abort,
    design: Design,
    gate: GateKey,
    output: &str,
    inputs: Inputs,
) -> Design
    requires { All (IsThere design.nets) inputs.items }
{
    let output = net_driven(rt, &design, output);
    assert!(rt; design.gate_place_of(gate).is_some());
    assert!(rt; fits(design.gate_of(gate).kind(), inputs.len()));
    design
        .rewire(gate, output, inputs)
        .expect(rt, "the gate at other nets")
}

pub fn remove_gate(rt: &impl Abort, design: Design, gate: GateKey) -> Design {
    assert!(rt; design.gate_place_of(gate).is_some());
    design.remove_gate(gate).expect(rt, "a gate less")
}

pub fn remove_net(rt: &impl Abort, design: Design, net: NetKey) -> Design {
    assert!(rt; design.net_place_of(net).is_some());
    assert!(rt; !design.is_used(net));
    design.remove_net(net).expect(rt, "a net less")
}

fn set_net_kind(rt: &impl Abort, design: Design, net: NetKey, kind: NetKind) -> Design {
    assert!(rt; design.net_place_of(net).is_some());
    design.set_net_kind(net, kind).expect(rt, "another kind")
}

pub fn remove_point(rt: &impl Abort, design: Design, net: NetKey, t: u64) -> Design {
    assert!(rt; design.net_place_of(net).is_some());
    assert!(rt; design.has_point(net, t));
    design.remove_point(net, t).expect(rt, "a point less")
}

fn set_delays(rt: &impl Abort, design: Design, gate: GateKey, delays: Delays) -> Design {
    assert!(rt; design.gate_place_of(gate).is_some());
    design.set_delays(gate, delays).expect(rt, "other delays")
}

fn set_gate_kind(rt: &impl Abort, design: Design, gate: GateKey, kind: GateKind) -> Design {
    assert!(rt; design.gate_place_of(gate).is_some());
    assert!(rt; fits(kind, design.gate_of(gate).inputs().len()));
    design.set_gate_kind(gate, kind).expect(rt, "another kind")
}

fn close_up(rt: &impl Abort, design: Design) -> Design {
    design.close_up().expect(rt, "the same design")
}

fn check_used(rt: &impl Abort, design: &Design, net: NetKey, used: bool) {
    assert!(rt; design.net_place_of(net).is_some());
    equal(rt, "is used", design.is_used(net), used);
}

fn check_kind_and_fall(rt: &impl Abort, design: &Design, gate: GateKey, kind: GateKind, fall: u32) {
    assert!(rt; design.gate_place_of(gate).is_some());
    equal(rt, "kind", design.gate_of(gate).kind(), kind);
    equal(
        rt,
        "delay",
        delay(&design.gate_of(gate).delays(), Value::Zero),
        fall,
    );
}

#[test]
fn removed_gate(rt: HostRuntime) {
    let (design, [g, h, i]) = three_readers(&rt, rt.alloc());
    let design = remove_gate(&rt, design, h);
    check_counts(&rt, &design, 3, 2, 0);
    check_gate(&rt, &design, 1, i, "i");
    check_no_gate(&rt, &design, h, "h");
    check_lists(&rt, &design, "a", &[g, i], &[]);
    check_lists(&rt, &design, "y", &[], &[g, i]);
    drop(design);
}

// A gate at other nets stands in their lists where it stands among the gates, and not last.
#[test]
fn gate_moved_and_moved_back(rt: HostRuntime) {
    let alloc = rt.alloc();
    let (design, [g, h, i]) = three_readers(&rt, alloc);
    let (design, _) = add_net(&rt, alloc, design, "z");
    let design = move_gate(&rt, alloc, design, h, "z", "b");
    check_lists(&rt, &design, "a", &[g, i], &[]);
    check_lists(&rt, &design, "b", &[h], &[]);
    check_lists(&rt, &design, "y", &[], &[g, i]);
    check_lists(&rt, &design, "z", &[], &[h]);
    let design = move_gate(&rt, alloc, design, h, "y", "a");
    check_lists(&rt, &design, "a", &[g, h, i], &[]);
    check_lists(&rt, &design, "b", &[], &[]);
    check_lists(&rt, &design, "y", &[], &[g, h, i]);
    check_gate(&rt, &design, 1, h, "h");
    drop(design);
}

fn move_gate(
    rt: &impl Abort,
    alloc: Global,
    design: Design,
    gate: GateKey,
    output: &str,
    read: &str,
) -> Design {
    let inputs = nets_read(rt, alloc, &design, &[read]);
    rewire(rt, design, gate, output, inputs)
}

#[test]
fn removed_net(rt: HostRuntime) {
    let (design, _) = three_readers(&rt, rt.alloc());
    let b = net_key(&rt, &design, "b");
    let y = net_key(&rt, &design, "y");
    check_used(&rt, &design, y, true);
    check_used(&rt, &design, b, false);
    let design = set_point(&rt, design, b, 4, Value::One);
    let design = set_point(&rt, design, b, 7, Value::Zero);
    check_counts(&rt, &design, 3, 3, 2);
    let design = remove_net(&rt, design, b);
    check_counts(&rt, &design, 2, 3, 0);
    check_no_net(&rt, &design, "b");
    check_net(&rt, &design, 1, y, "y", NetKind::Tri);
    drop(design);
}

#[test]
fn net_of_another_kind(rt: HostRuntime) {
    let (design, _) = three_readers(&rt, rt.alloc());
    let a = net_key(&rt, &design, "a");
    let design = set_point(&rt, design, a, 4, Value::One);
    let design = set_net_kind(&rt, design, a, NetKind::Wor);
    check_net(&rt, &design, 0, a, "a", NetKind::Wor);
    check_points(&rt, &design, a, &[(4, Value::One)]);
    drop(design);
}

#[test]
fn removed_point(rt: HostRuntime) {
    let (design, _) = three_readers(&rt, rt.alloc());
    let a = net_key(&rt, &design, "a");
    let design = set_point(&rt, design, a, 4, Value::One);
    let design = set_point(&rt, design, a, 7, Value::Zero);
    let design = remove_point(&rt, design, a, 4);
    check_points(&rt, &design, a, &[(7, Value::Zero)]);
    check_stimulus(&rt, &design, a, &[(5, Value::Unknown), (7, Value::Zero)]);
    drop(design);
}

#[test]
fn gate_of_other_delays_and_kind(rt: HostRuntime) {
    let (design, [g, _, _]) = three_readers(&rt, rt.alloc());
    let delays = Delays::new(5, 6).expect(&rt, "lawful delays");
    let design = set_delays(&rt, design, g, delays);
    check_kind_and_fall(&rt, &design, g, GateKind::Buf, 6);
    let design = set_gate_kind(&rt, design, g, GateKind::Not);
    check_kind_and_fall(&rt, &design, g, GateKind::Not, 6);
    drop(design);
}

// What one copy changes, the other doesn't.
#[test]
fn edited_copy(rt: HostRuntime) {
    let (design, [g, h, i]) = three_readers(&rt, rt.alloc());
    let a = net_key(&rt, &design, "a");
    let design = set_point(&rt, design, a, 1, Value::One);
    let copy = copy_of(&rt, &design);
    let design = set_point(&rt, design, a, 2, Value::Zero);
    check_points(&rt, &copy, a, &[(1, Value::One)]);
    let copy = remove_gate(&rt, copy, h);
    let copy = close_up(&rt, copy);
    check_lists(&rt, &copy, "a", &[g, i], &[]);
    check_lists(&rt, &design, "a", &[g, h, i], &[]);
    check_points(&rt, &design, a, &[(1, Value::One), (2, Value::Zero)]);
    check_gate(&rt, &design, 2, i, "i");
    drop(copy);
    drop(design);
}

fn add_numbered(rt: &impl Abort, alloc: Global, design: Design, number: u32) -> Design {
    let mut text = String::new(alloc);
    write!(text, "n{number}").expect(rt, "a name");
    let (design, _) = add_input(rt, alloc, design, text.as_str());
    design
}

// Lists stand in chunks of 32 nets and branches of 1,024: readers of the nets about the end of each. The net y comes first.
#[test]
fn lists_of_many_nets(rt: HostRuntime) {
    let alloc = rt.alloc();
    let (mut design, _) = add_net(&rt, alloc, empty(&rt, alloc), "y");
    for number in 0..1_100 {
        design = add_numbered(&rt, alloc, design, number);
    }
    let (design, g) = add_reader(&rt, alloc, design, "g", "n30");
    let (design, h) = add_reader(&rt, alloc, design, "h", "n31");
    let (design, i) = add_reader(&rt, alloc, design, "i", "n1022");
    let (design, j) = add_reader(&rt, alloc, design, "j", "n1023");
    check_lists(&rt, &design, "n0", &[], &[]);
    check_lists(&rt, &design, "n30", &[g], &[]);
    check_lists(&rt, &design, "n31", &[h], &[]);
    check_lists(&rt, &design, "n32", &[], &[]);
    check_lists(&rt, &design, "n1022", &[i], &[]);
    check_lists(&rt, &design, "n1023", &[j], &[]);
    check_lists(&rt, &design, "n1024", &[], &[]);
    drop(design);
}
