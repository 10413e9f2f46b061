//! A net with more points than stand in one piece.

use super::changes::remove_point;
use super::{add_input, check_stimulus, copy_of, empty, set_point};
use crate::compare::equal;
use design::{Design, NetKey};
use fourstate::Value;
use std::process::Abort;

/// The moment of the point of a number, where the points are four units apart.
fn moment(first: u64, number: u64) -> u64 {
    number.saturating_mul(4).saturating_add(first)
}

/// The design with so many points more, four units apart.
fn spread(
    rt: &impl Abort,
    mut design: Design,
    net: NetKey,
    count: u64,
    first: u64,
    value: Value,
) -> Design {
    for number in 0..count {
        design = set_point(rt, design, net, moment(first, number), value);
    }
    design
}

/// The design with so many points less, four units apart.
fn thinned(rt: &impl Abort, mut design: Design, net: NetKey, count: u64) -> Design {
    for number in 0..count {
        design = remove_point(rt, design, net, moment(0, number));
    }
    design
}

fn check_set(rt: &impl Abort, design: &Design, net: NetKey, points: &[(u64, bool)]) {
    assert!(rt; design.net_place_of(net).is_some());
    for (t, is_set) in points {
        equal(rt, t, design.has_point(net, *t), *is_set);
    }
}

fn check_count(rt: &impl Abort, design: &Design, net: NetKey, count: usize) {
    assert!(rt; design.net_place_of(net).is_some());
    equal(rt, "point count", design.net_of(net).point_count(), count);
    equal(rt, "point count", design.point_count(), count);
}

fn check_next(rt: &impl Abort, design: &Design, net: NetKey, next: &[(u64, Option<u64>)]) {
    assert!(rt; design.net_place_of(net).is_some());
    for (t, wanted) in next {
        equal(rt, t, design.net_of(net).next_point(*t), *wanted);
    }
}

/// The points one after another are so many of this value, from 0 on and four units apart, and no more.
fn check_each(rt: &impl Abort, design: &Design, net: NetKey, count: u64, value: Value) {
    assert!(rt; design.net_place_of(net).is_some());
    let mut number: u64 = 0;
    for (t, given) in design.net_of(net).points() {
        equal(rt, number, t, moment(0, number));
        equal(rt, t, given, value);
        number = number.saturating_add(1);
    }
    equal(rt, "points", number, count);
}

// 1 at 0, 4, .. 19,996.
fn check_first(rt: &impl Abort, design: &Design, a: NetKey) {
    check_count(rt, design, a, 5_000);
    check_each(rt, design, a, 5_000, Value::One);
    check_set(rt, design, a, &[(0, true), (2, false), (19_996, true)]);
    // Around the pieces' ends too.
    check_next(
        rt,
        design,
        a,
        &[(0, Some(4)), (3, Some(4)), (19_992, Some(19_996))],
    );
    check_next(
        rt,
        design,
        a,
        &[(4_092, Some(4_096)), (8_188, Some(8_192)), (19_996, None)],
    );
    check_stimulus(rt, design, a, &[(0, Value::One), (19_999, Value::One)]);
}

// 0 at 2, 6, .. 19,998, and 1 at 19,600, 19,604, .. 19,996.
fn check_last(rt: &impl Abort, design: &Design, a: NetKey) {
    check_count(rt, design, a, 5_100);
    check_set(
        rt,
        design,
        a,
        &[(0, false), (2, true), (9_000, false), (9_002, true)],
    );
    check_set(
        rt,
        design,
        a,
        &[(19_596, false), (19_600, true), (19_996, true)],
    );
    check_stimulus(
        rt,
        design,
        a,
        &[(1, Value::Unknown), (2, Value::Zero), (4, Value::Zero)],
    );
    check_stimulus(
        rt,
        design,
        a,
        &[(19_599, Value::Zero), (19_601, Value::One)],
    );
    check_stimulus(
        rt,
        design,
        a,
        &[(19_997, Value::One), (19_998, Value::Zero)],
    );
}

// Points behind the last one and between others, and points that go; the copy stays as it was.
#[test]
fn points_in_many_pieces(rt: HostRuntime) {
    let (design, a) = add_input(&rt, rt.alloc(), empty(&rt, rt.alloc()), "a");
    let design = spread(&rt, design, a, 5_000, 0, Value::One);
    let copy = copy_of(&rt, &design);
    let design = spread(&rt, design, a, 5_000, 2, Value::Zero);
    let design = thinned(&rt, design, a, 4_900);
    check_first(&rt, &copy, a);
    check_last(&rt, &design, a);
    drop(copy);
    drop(design);
}
