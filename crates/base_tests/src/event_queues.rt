//! Numbers noted for moments to come.

use crate::compare::equal;
use event_queue::EventQueue;
use std::alloc::Global;
use std::process::Abort;

fn noted(rt: &impl Abort, alloc: Global, numbers: &[(u64, usize)]) -> EventQueue {
    let mut queue = EventQueue::new(alloc);
    for (t, number) in numbers {
        queue.add(alloc, *t, *number).expect(rt, "room");
    }
    queue
}

// The moments come in order, whatever the order of noting, and each has its numbers in the order of noting.
#[test]
fn moments_in_order(rt: HostRuntime) {
    let alloc = rt.alloc();
    let mut queue = noted(
        &rt,
        alloc,
        &[(7, 1), (3, 2), (7, 0), (1_000_000_000, 4), (7, 1)],
    );
    let mut out = Vec::new(alloc);
    equal(&rt, "first", queue.first(), Some(3));
    queue.take(3, &mut out).expect(&rt, "room");
    equal(&rt, "first", queue.first(), Some(7));
    queue.take(7, &mut out).expect(&rt, "room");
    equal(&rt, "first", queue.first(), Some(1_000_000_000));
    assert!(&rt; out.as_slice() == [2, 1, 0, 1].as_slice());
}

// Numbers that were noted while their moment was far come before those that are noted when it is near, and a moment that
// lies before the last one taken is still a moment.
#[test]
fn a_far_moment_comes_near(rt: HostRuntime) {
    let alloc = rt.alloc();
    let mut queue = noted(&rt, alloc, &[(100, 1), (2, 5), (100, 3)]);
    let mut out = Vec::new(alloc);
    queue.take(2, &mut out).expect(&rt, "room");
    queue.take(60, &mut out).expect(&rt, "room");
    queue.add(alloc, 100, 2).expect(&rt, "room");
    queue.add(alloc, 59, 4).expect(&rt, "room");
    equal(&rt, "first", queue.first(), Some(59));
    queue.take(59, &mut out).expect(&rt, "room");
    equal(&rt, "first", queue.first(), Some(100));
    queue.take(100, &mut out).expect(&rt, "room");
    equal(&rt, "first", queue.first(), None);
    assert!(&rt; out.as_slice() == [5, 4, 1, 3, 2].as_slice());
}

// What is taken is gone, and a moment at which nothing is noted gives nothing.
#[test]
fn a_moment_is_taken_once(rt: HostRuntime) {
    let alloc = rt.alloc();
    let mut queue = noted(&rt, alloc, &[(5, 9)]);
    let mut out = Vec::new(alloc);
    queue.take(4, &mut out).expect(&rt, "room");
    assert!(&rt; out.is_empty());
    queue.take(5, &mut out).expect(&rt, "room");
    queue.take(5, &mut out).expect(&rt, "room");
    assert!(&rt; out.as_slice() == [9].as_slice());
    equal(&rt, "first", queue.first(), None);
    queue.add(alloc, 5, 8).expect(&rt, "room");
    queue.take(5, &mut out).expect(&rt, "room");
    assert!(&rt; out.as_slice() == [9, 8].as_slice());
}
