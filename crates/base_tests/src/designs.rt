//! Small designs, worked out by hand. A call that a design must allow stands in a helper with the tests for it, and what
//! is compared is read of a borrowed design. `drop` ends each test: a design that goes at the end of a body, or on a way
//! out of it, costs its proof 10 seconds and more, and a call of `drop` none.

ghost use Rattle.std.specs.Prelude.{All, IsSome};
ghost use Rattle.design.specs.kept.Keys.{IsConnected, IsDrivable, IsThere, net_by_key};

mod changes;
mod many_points;
mod random;

use crate::compare::equal;
use catalog::NameHasher;
use design::{
    Design, Gate, GateKey, Inputs, MAX_GATES, MAX_NETS, MAX_POINTS, Name, Net, NetKey, Terminal,
};
use fourstate::{
    Delays, GateKind, MAX_TIME, Magnitude, NetKind, TimeUnit, Unit, Value, delay, fits,
};
use std::alloc::Global;
use std::process::Abort;

fn name(rt: &impl Abort, alloc: Global, text: &str) -> Name {
    assert!(rt; Name::is_valid(text), "{text}");
    Name::new(alloc, text).expect(rt, "a name")
}

fn empty(rt: &impl Abort, alloc: Global) -> Design {
    let top = name(rt, alloc, "top");
    Design::empty(alloc, NameHasher::fixed(), top, TimeUnit::default())
}

fn add_net(rt: &impl Abort, alloc: Global, design: Design, text: &str) -> (Design, NetKey) {
    let name = name(rt, alloc, text);
    put_net(rt, design, name)
}

fn put_net(rt: &impl Abort, design: Design, name: Name) -> (Design, NetKey) {
    assert!(rt; !design.has_net(name.as_str()));
    assert!(rt; design.net_count() < MAX_NETS);
    design.add_net(name, NetKind::Tri).expect(rt, "a net more")
}

fn add_input(rt: &impl Abort, alloc: Global, design: Design, text: &str) -> (Design, NetKey) {
    let name = name(rt, alloc, text);
    assert!(rt; !design.has_net(name.as_str()), "{text}");
    assert!(rt; design.net_count() < MAX_NETS);
    design.add_input(name).expect(rt, "an input more")
}

/// The key of a net that is there.
fn net_there(rt: &impl Abort, design: &Design, text: &str) -> NetKey
    ensures { IsSome (net_by_key design.now result) }
{
    let net = net_key(rt, design, text);
    assert!(rt; design.net_place_of(net).is_some(), "{text}");
    net
}

/// The key of a net that gates may drive.
fn net_driven(rt: &impl Abort, design: &Design, text: &str) -> NetKey
    ensures { IsDrivable design.now.nets result }
{
    let net = net_there(rt, design, text);
    assert!(rt; !design.net_of(net).is_input(), "{text}");
    net
}

fn nets_read(rt: &impl Abort, alloc: Global, design: &Design, names: &[&str]) -> Inputs
    ensures { All (IsThere design.now.nets) result.items }
{
    let mut inputs = Inputs::new(alloc);
    for text in names {
        let net = net_there(rt, design, text);
        inputs
            .push(Terminal::Net(net))
            .expect(rt, "a terminal more");
    }
    inputs
}

/// A gate with a rise of 3 and a fall of 4.
fn gate(
    rt: &impl Abort,
    alloc: Global,
    design: &Design,
    text: &str,
    kind: GateKind,
    output: &str,
    inputs: Inputs,
) -> Gate
    requires { All (IsThere design.now.nets) inputs.items }
    ensures { IsConnected design.now.nets result }
{
    let name = name(rt, alloc, text);
    let output = net_driven(rt, design, output);
    let delays = Delays::new(3, 4).expect(rt, "lawful delays");
    assert!(rt; fits(kind, inputs.len()), "{text}");
    Gate::new(name, kind, delays, output, inputs)
}

fn add_gate(rt: &impl Abort, design: Design, gate: Gate) -> (Design, GateKey)
    requires { IsConnected design.nets gate }
{
    assert!(rt; !design.has_gate(gate.name().as_str()));
    assert!(rt; design.gate_count() < MAX_GATES);
    design.add_gate(gate).expect(rt, "a gate more")
}

fn set_point(rt: &impl Abort, design: Design, net: NetKey, t: u64, value: Value) -> Design {
    assert!(rt; design.net_place_of(net).is_some());
    assert!(rt; design.net_of(net).is_input());
    assert!(rt; t <= MAX_TIME);
    assert!(rt; design.point_count() < MAX_POINTS);
    design.set_point(net, t, value).expect(rt, "a point more")
}

fn set_horizon(rt: &impl Abort, design: Design, t: u64) -> Design {
    assert!(rt; t <= MAX_TIME);
    design.set_horizon(t)
}

fn copy_of(rt: &impl Abort, design: &Design) -> Design {
    design.try_clone().expect(rt, "a copy")
}

fn net_key(rt: &impl Abort, design: &Design, text: &str) -> NetKey {
    design.net(text).expect(rt, "a net of this name")
}

fn gate_key(rt: &impl Abort, design: &Design, text: &str) -> GateKey {
    design.gate(text).expect(rt, "a gate of this name")
}

fn check_counts(rt: &impl Abort, design: &Design, nets: usize, gates: usize, points: usize) {
    equal(rt, "net count", design.net_count(), nets);
    equal(rt, "gate count", design.gate_count(), gates);
    equal(rt, "point count", design.point_count(), points);
}

/// The gates that read a net and those that drive it.
fn check_lists(
    rt: &impl Abort,
    design: &Design,
    net: &str,
    readers: &[GateKey],
    drivers: &[GateKey],
) {
    let net = net_key(rt, design, net);
    assert!(rt; design.net_place_of(net).is_some());
    equal(rt, "fanout", design.fanout(net), readers);
    equal(rt, "drivers", design.drivers(net), drivers);
}

fn check_stimulus(rt: &impl Abort, design: &Design, net: NetKey, values: &[(u64, Value)]) {
    assert!(rt; design.net_place_of(net).is_some());
    for (t, value) in values {
        equal(rt, t, design.net_of(net).stimulus_at(*t), *value);
    }
}

fn check_points(rt: &impl Abort, design: &Design, net: NetKey, points: &[(u64, Value)]) {
    assert!(rt; design.net_place_of(net).is_some());
    equal(
        rt,
        "point count",
        design.net_of(net).point_count(),
        points.len(),
    );
    equal(rt, "point count", design.point_count(), points.len());
    for (t, value) in points {
        assert!(rt; design.has_point(net, *t), "at {t}");
        equal(rt, t, design.net_of(net).stimulus_at(*t), *value);
    }
}

/// The net at a place: what it is, and the look-ups of it.
fn check_net(
    rt: &impl Abort,
    design: &Design,
    place: usize,
    net: NetKey,
    text: &str,
    kind: NetKind,
) {
    check_net_at(rt, design, place, net, text);
    assert!(rt; design.net_place_of(net).is_some());
    equal(rt, "kind", design.net_of(net).kind(), kind);
    equal(rt, "net", design.net(text), Some(net));
    equal(rt, "net place", design.net_place(text), Some(place));
}

fn check_net_at(rt: &impl Abort, design: &Design, place: usize, net: NetKey, text: &str) {
    assert!(rt; place < design.net_count());
    equal(rt, "key", design.net_key_at(place), net);
    equal(rt, "name", design.net_at(place).name().as_str(), text);
}

fn check_no_net(rt: &impl Abort, design: &Design, text: &str) {
    assert!(rt; !design.has_net(text));
    equal(rt, "net", design.net(text), None);
    equal(rt, "net place", design.net_place(text), None);
}

/// The gate at a place: what it is, and the look-ups of it.
fn check_gate(rt: &impl Abort, design: &Design, place: usize, gate: GateKey, text: &str) {
    check_gate_at(rt, design, place, gate, text);
    assert!(rt; design.gate_place_of(gate).is_some());
    equal(
        rt,
        "output",
        Some(design.gate_of(gate).output()),
        design.net("y"),
    );
    equal(rt, "gate", design.gate(text), Some(gate));
    equal(rt, "gate place", design.gate_place(text), Some(place));
}

fn check_gate_at(rt: &impl Abort, design: &Design, place: usize, gate: GateKey, text: &str) {
    assert!(rt; place < design.gate_count());
    equal(rt, "key", design.gate_key_at(place), gate);
    equal(rt, "name", design.gate_at(place).name().as_str(), text);
}

fn check_no_gate(rt: &impl Abort, design: &Design, gate: GateKey, text: &str) {
    assert!(rt; !design.gate_place_of(gate).is_some());
    equal(rt, "gate", design.gate(text), None);
    equal(rt, "gate place", design.gate_place(text), None);
}

fn check_header(rt: &impl Abort, design: &Design, horizon: u64) {
    equal(rt, "top", design.top().as_str(), "top");
    equal(
        rt,
        "unit",
        design.unit(),
        TimeUnit {
            magnitude: Magnitude::One,
            unit: Unit::Nanosecond,
        },
    );
    equal(rt, "horizon", design.horizon(), horizon);
}

/// A buffer g from an input a to a net y.
fn buffer(rt: &impl Abort, alloc: Global) -> Design {
    let design = empty(rt, alloc);
    let (design, _) = add_input(rt, alloc, design, "a");
    let (design, _) = add_net(rt, alloc, design, "y");
    let (design, _) = add_reader(rt, alloc, design, "g", "a");
    design
}

/// A buffer more to the net y.
fn add_reader(
    rt: &impl Abort,
    alloc: Global,
    design: Design,
    text: &str,
    read: &str,
) -> (Design, GateKey) {
    let inputs = nets_read(rt, alloc, &design, &[read]);
    let gate = gate(rt, alloc, &design, text, GateKind::Buf, "y", inputs);
    add_gate(rt, design, gate)
}

#[test]
fn bytes_of_names(rt: HostRuntime) {
    for (text, valid) in [
        ("", false),
        ("a", true),
        ("!", true),
        ("~", true),
        ("a b", false),
        ("\u{7f}", false),
        ("é", false),
        ("a.b", true),
        ("u.v.w", true),
        (".", false),
        (".a", false),
        ("a.", false),
        ("a..b", false),
        ("a'b", false),
        ("u.a'b", false),
        ("$end", false),
        ("a.$end", false),
        ("$end.a", false),
        ("$endx", true),
        ("a.$endx", true),
        ("$en", true),
        ("\t", false),
    ] {
        equal(&rt, text, Name::is_valid(text), valid);
    }
}

#[test]
fn longest_name(rt: HostRuntime) {
    let mut long = String::new(rt.alloc());
    for _ in 0..1024 {
        long.push('n').expect(&rt, "one more");
    }
    let kept = name(&rt, rt.alloc(), long.as_str());
    equal(&rt, "kept", kept.as_str(), long.as_str());
    long.push('n').expect(&rt, "one more");
    assert!(rt; !Name::is_valid(long.as_str()));
}

// The parts of a name and its dots are counted together.
#[test]
fn longest_name_with_dots(rt: HostRuntime) {
    let mut long = String::new(rt.alloc());
    for _ in 0..511 {
        long.push_str("u.").expect(&rt, "two more");
    }
    long.push_str("nn").expect(&rt, "two more");
    assert_eq!(rt; long.len(), 1024);
    assert!(rt; Name::is_valid(long.as_str()));
    long.push('n').expect(&rt, "one more");
    assert!(rt; !Name::is_valid(long.as_str()));
}

#[test]
fn nets_by_place_and_name(rt: HostRuntime) {
    let alloc = rt.alloc();
    let design = empty(&rt, alloc);
    let (design, a) = add_input(&rt, alloc, design, "a");
    let (design, y) = add_net(&rt, alloc, design, "y");
    check_net(&rt, &design, 0, a, "a", NetKind::Wire);
    check_net(&rt, &design, 1, y, "y", NetKind::Tri);
    check_counts(&rt, &design, 2, 0, 0);
    check_no_net(&rt, &design, "z");
    assert_ne!(rt; a, y);
    drop(design);
}

#[test]
fn gates_by_place_and_name(rt: HostRuntime) {
    let alloc = rt.alloc();
    let (design, h) = add_reader(&rt, alloc, buffer(&rt, alloc), "h", "y");
    check_gate(&rt, &design, 0, gate_key(&rt, &design, "g"), "g");
    check_gate(&rt, &design, 1, h, "h");
    check_counts(&rt, &design, 2, 2, 0);
    drop(design);
}

fn check_gate_parts(rt: &impl Abort, gate: &Gate, a: NetKey, y: NetKey) {
    equal(rt, "kind", gate.kind(), GateKind::And);
    equal(rt, "delay", delay(&gate.delays(), Value::Zero), 4);
    equal(rt, "output", gate.output(), y);
    assert!(rt;
        matches!(
        gate.inputs(),
        [Terminal::Net(first), Terminal::Net(second)] if *first == a && *second == y
    )
    );
}

#[test]
fn parts_of_a_gate(rt: HostRuntime) {
    let design = buffer(&rt, rt.alloc());
    let inputs = nets_read(&rt, rt.alloc(), &design, &["a", "y"]);
    let gate = gate(&rt, rt.alloc(), &design, "h", GateKind::And, "y", inputs);
    let (a, y) = (net_key(&rt, &design, "a"), net_key(&rt, &design, "y"));
    check_gate_parts(&rt, &gate, a, y);
    drop(gate);
    drop(design);
}

// A gate that reads a net twice stands once in its fan-out; gates stand in the order in which they were added.
#[test]
fn fan_out_of_two_gates(rt: HostRuntime) {
    let alloc = rt.alloc();
    let design = buffer(&rt, alloc);
    let g = gate_key(&rt, &design, "g");
    check_lists(&rt, &design, "a", &[g], &[]);
    check_lists(&rt, &design, "y", &[], &[g]);
    let twice = nets_read(&rt, alloc, &design, &["a", "y", "a"]);
    let gate = gate(&rt, alloc, &design, "h", GateKind::Xor, "y", twice);
    let (design, h) = add_gate(&rt, design, gate);
    check_lists(&rt, &design, "a", &[g, h], &[]);
    check_lists(&rt, &design, "y", &[h], &[g, h]);
    drop(design);
}

#[test]
fn stimulus(rt: HostRuntime) {
    let design = buffer(&rt, rt.alloc());
    let a = net_key(&rt, &design, "a");
    check_stimulus(&rt, &design, a, &[(0, Value::Unknown)]);
    let design = set_point(&rt, design, a, 12, Value::Zero);
    let design = set_point(&rt, design, a, 0, Value::Zero);
    let design = set_point(&rt, design, a, 10, Value::One);
    let values = [
        (0, Value::Zero),
        (9, Value::Zero),
        (10, Value::One),
        (11, Value::One),
        (12, Value::Zero),
        (100, Value::Zero),
    ];
    check_stimulus(&rt, &design, a, &values);
    check_counts(&rt, &design, 2, 1, 3);
    drop(design);
}

fn check_has_point(rt: &impl Abort, design: &Design, net: NetKey, t: u64, there: bool) {
    assert!(rt; design.net_place_of(net).is_some());
    equal(rt, "has point", design.has_point(net, t), there);
}

#[test]
fn replaced_points(rt: HostRuntime) {
    let design = buffer(&rt, rt.alloc());
    let a = net_key(&rt, &design, "a");
    let design = set_point(&rt, design, a, 7, Value::One);
    let design = set_point(&rt, design, a, 3, Value::Zero);
    let design = set_point(&rt, design, a, 7, Value::HighZ);
    check_points(&rt, &design, a, &[(3, Value::Zero), (7, Value::HighZ)]);
    check_has_point(&rt, &design, a, 7, true);
    check_has_point(&rt, &design, a, 6, false);
    check_stimulus(&rt, &design, a, &[(2, Value::Unknown), (8, Value::HighZ)]);
    drop(design);
}

#[test]
fn header(rt: HostRuntime) {
    let design = empty(&rt, rt.alloc());
    check_header(&rt, &design, 0);
    let design = set_horizon(&rt, design, 30);
    check_header(&rt, &design, 30);
    drop(design);
}
