//! Lists in chunks, worked out by hand.

use crate::compare::equal;
use chunked::Chunked;
use std::alloc::Global;
use std::process::Abort;

/// The numbers from 0 up to `end`.
fn count_up(rt: &impl Abort, alloc: Global, end: u64) -> Chunked<u64> {
    let mut list = Chunked::new(alloc);
    for number in 0..end {
        list.push(number).expect(rt, "room");
    }
    list
}

fn copy(rt: &impl Abort, list: &Chunked<u64>) -> Chunked<u64> {
    list.try_clone().expect(rt, "a copy")
}

fn put(rt: &impl Abort, list: &mut Chunked<u64>, index: usize, number: u64) {
    assert!(rt; index < list.len(), "{index}");
    list.set(index, number).expect(rt, "room");
}

/// The list has the numbers from 0 up to `end`, but for one.
fn check_but(rt: &impl Abort, list: &Chunked<u64>, end: u64, index: usize, number: u64) {
    let mut next = 0;
    for at in 0..list.len() {
        let wanted = if at == index { number } else { next };
        equal(rt, at, list.get(at).copied(), Some(wanted));
        next = u64::wrapping_add(next, 1);
    }
    equal(rt, "number of elements", next, end);
    equal(rt, "behind the last", list.get(list.len()), None);
}

fn check(rt: &impl Abort, list: &Chunked<u64>, end: u64) {
    check_but(rt, list, end, list.len(), 0);
}

// Chunks have 32 elements, branches 1,024.
#[test]
fn lists_grow_over_the_borders_of_chunks_and_branches(rt: HostRuntime) {
    for end in [
        0, 1, 31, 32, 33, 64, 1_023, 1_024, 1_025, 1_056, 1_057, 2_048, 2_100,
    ] {
        let list = count_up(&rt, rt.alloc(), end);
        check(&rt, &list, end);
        drop(list);
    }
}

#[test]
fn copies_keep_what_they_had(rt: HostRuntime) {
    let mut list = count_up(&rt, rt.alloc(), 2_100);
    let mut second = copy(&rt, &list);
    put(&rt, &mut list, 1_055, 7_000);
    check_but(&rt, &list, 2_100, 1_055, 7_000);
    check(&rt, &second, 2_100);
    second.push(2_100).expect(&rt, "room");
    put(&rt, &mut second, 0, 7);
    check_but(&rt, &list, 2_100, 1_055, 7_000);
    check_but(&rt, &second, 2_101, 0, 7);
    drop(list);
    drop(second);
}

// The second write falls on a chunk whose row the first has copied, the third on another chunk of that row.
#[test]
fn writes_side_by_side_change_one_copy(rt: HostRuntime) {
    let first = count_up(&rt, rt.alloc(), 1_100);
    let mut second = copy(&rt, &first);
    for index in [40, 41, 70] {
        put(&rt, &mut second, index, index as u64);
        check(&rt, &second, 1_100);
        put(&rt, &mut second, index, 9_000);
        check_but(&rt, &second, 1_100, index, 9_000);
        put(&rt, &mut second, index, index as u64);
    }
    check(&rt, &first, 1_100);
    drop(first);
    drop(second);
}

#[test]
fn lists_are_cut(rt: HostRuntime) {
    let mut list = count_up(&rt, rt.alloc(), 2_100);
    let whole = copy(&rt, &list);
    for end in [
        2_101, 2_100, 2_049, 2_048, 2_047, 1_057, 1_056, 1_024, 1_023, 33, 32, 1, 0,
    ] {
        list.truncate(end).expect(&rt, "room");
        check(&rt, &list, end.min(2_100) as u64);
    }
    list.push(0).expect(&rt, "room");
    check(&rt, &list, 1);
    check(&rt, &whole, 2_100);
    drop(list);
    drop(whole);
}
