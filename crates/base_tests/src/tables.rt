//! The tables of the standard, written out by hand.

use crate::compare::equal;
use fourstate::{
    DelayTimes, Delays, GateKind, Inputs, MAX_INPUTS, NetKind, NetRule, Value, delay, fits,
    gate_value, resolve, takes_off,
};
use std::process::Abort;

/// The order of rows and columns in each table.
const ORDER: [Value; 4] = [Value::Zero, Value::One, Value::Unknown, Value::HighZ];

/// A row for each first input, and in it a byte for each second input.
type Table = [&'static [u8; 4]; 4];

fn check_gate(rt: &impl Abort, kind: GateKind, table: Table) {
    assert!(rt; fits(kind, 2));
    for (row, first) in table.iter().zip(ORDER.iter()) {
        for (symbol, second) in row.iter().zip(ORDER.iter()) {
            let value = gate_value(kind, &Inputs::of(&[*first, *second]));
            equal(rt, (kind, first, second), value.symbol(), *symbol);
        }
    }
}

fn check_net(rt: &impl Abort, kind: NetKind, table: Table) {
    for (row, first) in table.iter().zip(ORDER.iter()) {
        for (symbol, second) in row.iter().zip(ORDER.iter()) {
            let value = resolve(kind, &[*first, *second]);
            equal(rt, (kind, first, second), value.symbol(), *symbol);
        }
    }
    equal(
        rt,
        (kind, "no driver"),
        resolve(kind, &[]).symbol(),
        table[3][3],
    );
}

fn check_delays(rt: &impl Abort, delays: Option<Delays>, table: [u32; 4]) {
    let delays = delays.expect(rt, "lawful delays");
    for (value, time) in ORDER.iter().zip(table) {
        equal(rt, *value, delay(&delays, *value), time);
    }
}

// IEEE 1364-2005, 7.2, table 7-3; 7.4, table 7-5: a row for each data, a column for each control; L and H are x here.
const GATES: [(GateKind, Table); 10] = [
    (GateKind::And, [b"0000", b"01xx", b"0xxx", b"0xxx"]),
    (GateKind::Nand, [b"1111", b"10xx", b"1xxx", b"1xxx"]),
    (GateKind::Or, [b"01xx", b"1111", b"x1xx", b"x1xx"]),
    (GateKind::Nor, [b"10xx", b"0000", b"x0xx", b"x0xx"]),
    (GateKind::Xor, [b"01xx", b"10xx", b"xxxx", b"xxxx"]),
    (GateKind::Xnor, [b"10xx", b"01xx", b"xxxx", b"xxxx"]),
    (GateKind::Bufif0, [b"0zxx", b"1zxx", b"xzxx", b"xzxx"]),
    (GateKind::Bufif1, [b"z0xx", b"z1xx", b"zxxx", b"zxxx"]),
    (GateKind::Notif0, [b"1zxx", b"0zxx", b"xzxx", b"xzxx"]),
    (GateKind::Notif1, [b"z1xx", b"z0xx", b"zxxx", b"zxxx"]),
];

#[test]
fn gates_of_two_inputs(rt: HostRuntime) {
    for (kind, table) in GATES {
        check_gate(&rt, kind, table);
    }
}

// IEEE 1364-2005, 7.3, table 7-4.
#[test]
fn gates_of_one_input(rt: HostRuntime) {
    for (input, (same, inverted)) in ORDER
        .iter()
        .zip([(b'0', b'1'), (b'1', b'0'), (b'x', b'x'), (b'x', b'x')])
    {
        equal(
            &rt,
            *input,
            gate_value(GateKind::Buf, &Inputs::of(&[*input])).symbol(),
            same,
        );
        equal(
            &rt,
            *input,
            gate_value(GateKind::Not, &Inputs::of(&[*input])).symbol(),
            inverted,
        );
    }
}

const MORE: [(GateKind, &[Value], Value); 6] = [
    (GateKind::Xor, &[Value::One; 3], Value::One),
    (GateKind::Xnor, &[Value::One; 3], Value::Zero),
    (
        GateKind::Xor,
        &[Value::One, Value::Zero, Value::One, Value::Zero],
        Value::Zero,
    ),
    (GateKind::And, &[Value::One], Value::One),
    (GateKind::And, &[Value::One; MAX_INPUTS], Value::One),
    (
        GateKind::Nor,
        &[Value::One, Value::Unknown, Value::Zero],
        Value::Zero,
    ),
];

#[test]
fn more_than_two_inputs(rt: HostRuntime) {
    for (kind, inputs, value) in MORE {
        assert!(rt; fits(kind, inputs.len()));
        equal(
            &rt,
            (kind, inputs),
            gate_value(kind, &Inputs::of(inputs)),
            value,
        );
    }
}

// A 0 behind the others has a bit in neither word.
#[test]
fn inputs_are_told_apart(rt: HostRuntime) {
    let mut inputs = Inputs::new();
    inputs.put_first(Value::HighZ);
    inputs.put_first(Value::One);
    equal(&rt, "number", inputs.len(), 2);
    for (values, is_same) in [
        ([Value::One, Value::HighZ].as_slice(), true),
        ([Value::HighZ, Value::One].as_slice(), false),
        ([Value::One, Value::Unknown].as_slice(), false),
        ([Value::One, Value::HighZ, Value::Zero].as_slice(), false),
    ] {
        assert!(rt; values.len() <= MAX_INPUTS);
        equal(&rt, values, inputs.is_same(Inputs::of(values)), is_same);
    }
}

#[test]
fn numbers_of_inputs(rt: HostRuntime) {
    for (kind, inputs, fit) in [
        (GateKind::And, 0, false),
        (GateKind::And, 1, true),
        (GateKind::Xnor, 64, true),
        (GateKind::Xnor, 65, false),
        (GateKind::Buf, 0, false),
        (GateKind::Buf, 1, true),
        (GateKind::Not, 2, false),
        (GateKind::Bufif1, 1, false),
        (GateKind::Notif0, 2, true),
        (GateKind::Notif1, 3, false),
    ] {
        equal(&rt, (kind, inputs), fits(kind, inputs), fit);
    }
}

// IEEE 1364-2005, 4.6, tables 4-2 to 4-6. Without a driver a net has what two drivers of z give it.
const NETS: [(NetKind, Table); 8] = [
    (NetKind::Wire, [b"0xx0", b"x1x1", b"xxxx", b"01xz"]),
    (NetKind::Tri, [b"0xx0", b"x1x1", b"xxxx", b"01xz"]),
    (NetKind::Wand, [b"0000", b"01x1", b"0xxx", b"01xz"]),
    (NetKind::Triand, [b"0000", b"01x1", b"0xxx", b"01xz"]),
    (NetKind::Wor, [b"01x0", b"1111", b"x1xx", b"01xz"]),
    (NetKind::Trior, [b"01x0", b"1111", b"x1xx", b"01xz"]),
    (NetKind::Tri0, [b"0xx0", b"x1x1", b"xxxx", b"01x0"]),
    (NetKind::Tri1, [b"0xx0", b"x1x1", b"xxxx", b"01x1"]),
];

#[test]
fn nets_of_two_drivers(rt: HostRuntime) {
    for (kind, table) in NETS {
        check_net(&rt, kind, table);
    }
}

#[test]
fn nets_of_one_driver(rt: HostRuntime) {
    for (kind, rule) in [
        (NetKind::Wire, NetRule::Wire),
        (NetKind::Tri, NetRule::Wire),
        (NetKind::Wand, NetRule::Wand),
        (NetKind::Triand, NetRule::Wand),
        (NetKind::Wor, NetRule::Wor),
        (NetKind::Trior, NetRule::Wor),
    ] {
        equal(&rt, kind, kind.rule(), rule);
        equal(&rt, kind, kind.passes_lone_driver(), true);
        for value in ORDER {
            equal(&rt, (kind, value), resolve(kind, &[value]), value);
        }
    }
}

#[test]
fn pulled_nets_of_one_driver(rt: HostRuntime) {
    for (kind, rule, values) in [
        (NetKind::Tri0, NetRule::Pulldown, b"01x0"),
        (NetKind::Tri1, NetRule::Pullup, b"01x1"),
    ] {
        equal(&rt, kind, kind.rule(), rule);
        equal(&rt, kind, kind.passes_lone_driver(), false);
        for (value, symbol) in ORDER.iter().zip(values) {
            equal(
                &rt,
                (kind, value),
                resolve(kind, &[*value]).symbol(),
                *symbol,
            );
        }
    }
}

#[test]
fn delays_and_their_range(rt: HostRuntime) {
    for (rise, fall, lawful) in [
        (0, 1, false),
        (1, 0, false),
        (1, 1, true),
        (1_000_000, 1_000_000, true),
        (1_000_001, 1, false),
        (1, 1_000_001, false),
        (u64::MAX, 1, false),
    ] {
        equal(&rt, (rise, fall), Delays::new(rise, fall).is_some(), lawful);
    }
    check_delays(&rt, Delays::new(10, 1), [1, 10, 1, 1]);
    check_delays(&rt, Delays::new(2, 3), [3, 2, 2, 2]);
}

#[test]
fn turn_off_delays_and_their_range(rt: HostRuntime) {
    for (rise, fall, off, lawful) in [
        (1, 1, 0, false),
        (1, 1, 1, true),
        (1_000_000, 1_000_000, 1_000_000, true),
        (1, 1, 1_000_001, false),
        (1, 1, u64::MAX, false),
        (0, 1, 1, false),
        (1, 1_000_001, 1, false),
    ] {
        equal(
            &rt,
            (rise, fall, off),
            Delays::with_off(rise, fall, off).is_some(),
            lawful,
        );
    }
    // To x the least of the three, to z the last.
    check_delays(&rt, Delays::with_off(2, 3, 5), [3, 2, 2, 5]);
    check_delays(&rt, Delays::with_off(6, 7, 4), [7, 6, 4, 4]);
    check_delays(&rt, Delays::with_off(8, 4, 6), [4, 8, 4, 6]);
    check_delays(&rt, Delays::with_off(1, 1, 1_000_000), [1, 1, 1, 1_000_000]);
}

#[test]
fn delays_that_differ(rt: HostRuntime) {
    let three = Delays::with_off(2, 3, 5).expect(&rt, "lawful delays");
    for (other, same) in [
        (Delays::with_off(2, 3, 5), true),
        (Delays::with_off(2, 3, 4), false),
        (Delays::with_off(2, 4, 5), false),
        (Delays::with_off(1, 3, 5), false),
        (Delays::new(2, 3), false),
    ] {
        let other = other.expect(&rt, "lawful delays");
        equal(&rt, other, three.is_same(other), same);
        equal(&rt, other, other.is_same(three), same);
    }
    // Each change takes as long, and yet one of them has a turn-off delay.
    let two = Delays::new(2, 3).expect(&rt, "lawful delays");
    let least = Delays::with_off(2, 3, 2).expect(&rt, "lawful delays");
    equal(&rt, "two and three", two.is_same(least), false);
    equal(&rt, "of two", two.has_off(), false);
    equal(&rt, "of three", least.has_off(), true);
}

#[test]
fn kinds_with_a_turn_off_delay(rt: HostRuntime) {
    for (kind, takes) in GateKind::ALL.iter().zip([
        false, false, false, false, false, false, false, false, true, true, true, true,
    ]) {
        equal(&rt, *kind, takes_off(*kind), takes);
    }
}

#[test]
fn times_that_no_gate_may_have(rt: HostRuntime) {
    for (rise, fall, zero, over) in [
        (0, 1, true, false),
        (1, 0, true, false),
        (1, 1, false, false),
        (1_000_000, 1_000_000, false, false),
        (1_000_001, 1, false, true),
        (1, 1_000_001, false, true),
        (0, 1_000_001, true, true),
    ] {
        let times = DelayTimes::new(rise, fall);
        equal(&rt, (rise, fall), times.has_zero(), zero);
        equal(&rt, (rise, fall), times.exceeds_limit(), over);
        equal(
            &rt,
            (rise, fall),
            Delays::from_times(times).is_some(),
            !zero && !over,
        );
    }
}

#[test]
fn times_of_one_number_and_of_two(rt: HostRuntime) {
    let one = DelayTimes::uniform(3);
    equal(&rt, "one of 3", one, DelayTimes::new(3, 3));
    equal(
        &rt,
        "one with a fall of 4",
        one.with_fall(4),
        DelayTimes::new(3, 4),
    );
    equal(
        &rt,
        "one with a fall of 0",
        one.with_fall(0).has_zero(),
        true,
    );
}

#[test]
fn times_of_three_numbers(rt: HostRuntime) {
    let two = DelayTimes::new(2, 3);
    equal(&rt, "of two", two.off, None);
    for (off, zero, over) in [
        (0, true, false),
        (1, false, false),
        (1_000_000, false, false),
        (1_000_001, false, true),
    ] {
        let three = two.with_off(off);
        equal(&rt, "the rise", three.rise, 2);
        equal(&rt, "the fall", three.fall, 3);
        equal(&rt, "the turn-off delay", three.off, Some(off));
        equal(&rt, off, three.has_zero(), zero);
        equal(&rt, off, three.exceeds_limit(), over);
    }
    equal(
        &rt,
        "another fall",
        two.with_off(5).with_fall(4),
        DelayTimes::new(2, 4).with_off(5),
    );
}

const GATE_WORDS: [(&[u8], Option<GateKind>); 4] = [
    (b"notif0", Some(GateKind::Notif0)),
    (b"or", Some(GateKind::Or)),
    (b"Or", None),
    (b"nands", None),
];

const NET_WORDS: [(&[u8], Option<NetKind>); 6] = [
    (b"triand", Some(NetKind::Triand)),
    (b"tri0", Some(NetKind::Tri0)),
    (b"tri1", Some(NetKind::Tri1)),
    (b"tri2", None),
    (b"trireg", None),
    (b"", None),
];

#[test]
fn words(rt: HostRuntime) {
    for (word, kind) in GATE_WORDS {
        equal(&rt, word, GateKind::from_keyword(word), kind);
    }
    for (word, kind) in NET_WORDS {
        equal(&rt, word, NetKind::from_keyword(word), kind);
    }
    equal(&rt, "keyword", GateKind::Xnor.keyword(), "xnor");
    equal(&rt, "keyword", NetKind::Trior.keyword(), "trior");
    equal(&rt, "keyword", NetKind::Tri1.keyword(), "tri1");
}

#[test]
fn values(rt: HostRuntime) {
    equal(&rt, "z", Value::from_symbol(b'z'), Some(Value::HighZ));
    equal(&rt, "X", Value::from_symbol(b'X'), None);
    equal(&rt, "inverted", Value::Unknown.inverted(), Value::Unknown);
    equal(&rt, "as input", Value::HighZ.as_input(), Value::Unknown);
    equal(&rt, "default", Value::default(), Value::Unknown);
}
