//! Catalogs worked out by hand, and catalogs beside the reference implementation. Each test gives its catalogs to `drop`:
//! one that goes at the end of a body costs its proof 10 seconds and more.

use crate::compare::equal;
use catalog::plain::PlainCatalog;
use catalog::{Catalog, Key, NameHasher, Named};
use std::alloc::Global;
use std::process::Abort;

#[derive(Drop)]
struct Item {
    name: String,
    value: u32,
}

impl Named for Item {
    ghost use Rattle.std.specs.Prelude.{string_bytes};

    ghost name = { λ item. string_bytes item.name };

    fn name(&self) -> &str {
        self.name.as_str()
    }
}

fn make_item(rt: &impl Abort, alloc: Global, name: &str, value: u32) -> Item {
    let name = String::from_str(alloc, name).expect(rt, "a name");
    Item { name, value }
}

fn add(
    rt: &impl Abort,
    alloc: Global,
    catalog: Catalog<Item>,
    name: &str,
    value: u32,
) -> (Catalog<Item>, Key) {
    let item = make_item(rt, alloc, name, value);
    assert!(rt; catalog.key(item.name()).is_none(), "{name}");
    let mut catalog = catalog;
    let key = catalog.push(item).expect(rt, "a record more");
    (catalog, key)
}

fn put(
    rt: &impl Abort,
    alloc: Global,
    catalog: Catalog<Item>,
    key: Key,
    name: &str,
    value: u32,
) -> Catalog<Item> {
    let item = make_item(rt, alloc, name, value);
    let old = catalog.get(key).expect(rt, "a record");
    assert!(rt; old.name() == item.name(), "{name}");
    catalog.replace(key, item).expect(rt, "another record")
}

fn take(rt: &impl Abort, catalog: Catalog<Item>, key: Key) -> Catalog<Item> {
    assert!(rt; catalog.get(key).is_some(), "{key}");
    catalog.remove(key).expect(rt, "a record less")
}

fn copy(rt: &impl Abort, catalog: &Catalog<Item>) -> Catalog<Item> {
    catalog.try_clone().expect(rt, "a copy")
}

fn closed_up(rt: &impl Abort, catalog: Catalog<Item>) -> Catalog<Item> {
    catalog.close_up().expect(rt, "the same catalog")
}

fn numbered(rt: &impl Abort, alloc: Global, letters: &str, number: u64) -> String {
    format!(in alloc; "{letters}{number}").expect(rt, "a name")
}

fn value_of(catalog: &Catalog<Item>, name: &str) -> Option<u32> {
    let key = catalog.key(name)?;
    Some(catalog.get(key)?.value)
}

/// The record at a place has this name and this value, and is found by name, key and place.
fn check_record(rt: &impl Abort, catalog: &Catalog<Item>, place: usize, name: &str, value: u32) {
    assert!(rt; place < catalog.len());
    let key = catalog.key_at(place);
    equal(rt, name, catalog.key(name), Some(key));
    equal(rt, name, catalog.place(key), Some(place));
    equal(rt, place, catalog.record_at_place(place).name(), name);
    equal(rt, name, value_of(catalog, name), Some(value));
}

/// The catalog has these names and values in this order, and finds each by name, key and place.
fn check_all(rt: &impl Abort, catalog: &Catalog<Item>, wanted: &[(&str, u32)]) {
    equal(rt, "number of records", catalog.len(), wanted.len());
    for (place, (name, value)) in wanted.iter().enumerate() {
        check_record(rt, catalog, place, name, *value);
    }
}

#[test]
fn records_are_found_by_name_key_and_place(rt: HostRuntime) {
    let alloc = rt.alloc();
    let catalog = Catalog::new(alloc, NameHasher::fixed());
    check_all(&rt, &catalog, &[]);
    let (catalog, a) = add(&rt, alloc, catalog, "a", 1);
    let (catalog, b) = add(&rt, alloc, catalog, "b", 2);
    let (catalog, c) = add(&rt, alloc, catalog, "c", 3);
    check_all(&rt, &catalog, &[("a", 1), ("b", 2), ("c", 3)]);
    assert!(rt; a != b && b != c && a != c);
    equal(&rt, "key", catalog.key("d"), None);
    assert!(rt; catalog.get(99).is_none());
    equal(&rt, "place", catalog.place(99), None);
    let catalog = put(&rt, alloc, catalog, b, "b", 20);
    check_all(&rt, &catalog, &[("a", 1), ("b", 20), ("c", 3)]);
    drop(catalog);
}

#[test]
fn a_removal_keeps_the_order_and_its_key_may_come_again(rt: HostRuntime) {
    let alloc = rt.alloc();
    let catalog = Catalog::new(alloc, NameHasher::new(&rt));
    let (catalog, _) = add(&rt, alloc, catalog, "a", 1);
    let (catalog, b) = add(&rt, alloc, catalog, "b", 2);
    let (catalog, c) = add(&rt, alloc, catalog, "c", 3);
    let catalog = take(&rt, catalog, b);
    check_all(&rt, &catalog, &[("a", 1), ("c", 3)]);
    equal(&rt, "key", catalog.key("b"), None);
    let (catalog, d) = add(&rt, alloc, catalog, "d", 4);
    equal(&rt, "the key is used again", d, b);
    equal(&rt, "key", catalog.key("b"), None);
    check_all(&rt, &catalog, &[("a", 1), ("c", 3), ("d", 4)]);
    let catalog = closed_up(&rt, catalog);
    check_all(&rt, &catalog, &[("a", 1), ("c", 3), ("d", 4)]);
    equal(&rt, "key", catalog.key("c"), Some(c));
    let (catalog, _) = add(&rt, alloc, catalog, "b", 5);
    check_all(&rt, &catalog, &[("a", 1), ("c", 3), ("d", 4), ("b", 5)]);
    drop(catalog);
}

#[test]
fn copies_keep_what_they_had(rt: HostRuntime) {
    let alloc = rt.alloc();
    let catalog = Catalog::new(alloc, NameHasher::fixed());
    let (catalog, a) = add(&rt, alloc, catalog, "a", 1);
    let (catalog, _) = add(&rt, alloc, catalog, "b", 2);
    let first = copy(&rt, &catalog);
    let (catalog, _) = add(&rt, alloc, catalog, "c", 3);
    let second = copy(&rt, &catalog);
    let catalog = put(&rt, alloc, catalog, a, "a", 10);
    let third = copy(&rt, &catalog);
    let catalog = closed_up(&rt, take(&rt, catalog, a));
    check_all(&rt, &first, &[("a", 1), ("b", 2)]);
    check_all(&rt, &second, &[("a", 1), ("b", 2), ("c", 3)]);
    check_all(&rt, &third, &[("a", 10), ("b", 2), ("c", 3)]);
    check_all(&rt, &catalog, &[("b", 2), ("c", 3)]);
    drop(first);
    drop(second);
    drop(third);
    drop(catalog);
}

/// More names than are kept apart, so that all are gathered anew, more than once.
#[test]
fn many_names_are_found_in_a_copy(rt: HostRuntime) {
    let alloc = rt.alloc();
    let catalog = Catalog::new(alloc, NameHasher::new(&rt));
    let (catalog, _) = add(&rt, alloc, catalog, "first", 7);
    let kept = copy(&rt, &catalog);
    let mut catalog = catalog;
    for i in 0..2_100u32 {
        let name = numbered(&rt, alloc, "name_", u64::from(i));
        let (more, _) = add(&rt, alloc, catalog, name.as_str(), i);
        catalog = more;
    }
    equal(&rt, "number of records", catalog.len(), 2_101);
    equal(&rt, "first", value_of(&catalog, "first"), Some(7));
    for i in 0..2_100u32 {
        let name = numbered(&rt, alloc, "name_", u64::from(i));
        equal(&rt, i, value_of(&catalog, name.as_str()), Some(i));
    }
    check_all(&rt, &kept, &[("first", 7)]);
    drop(kept);
    drop(catalog);
}

/// A record more.
fn plain_add(
    rt: &impl Abort,
    alloc: Global,
    plain: PlainCatalog<Item>,
    name: &str,
    value: u32,
) -> PlainCatalog<Item> {
    let item = make_item(rt, alloc, name, value);
    assert!(rt; plain.key(item.name()).is_none(), "{name}");
    let (plain, _) = plain.push(item).expect(rt, "a record more");
    plain
}

fn plain_put(
    rt: &impl Abort,
    alloc: Global,
    plain: PlainCatalog<Item>,
    key: Key,
    name: &str,
    value: u32,
) -> PlainCatalog<Item> {
    let item = make_item(rt, alloc, name, value);
    let old = plain.get(key).expect(rt, "a record");
    assert!(rt; old.name() == item.name(), "{name}");
    plain.replace(key, item).expect(rt, "another record")
}

fn plain_take(rt: &impl Abort, plain: PlainCatalog<Item>, key: Key) -> PlainCatalog<Item> {
    assert!(rt; plain.get(key).is_some(), "{key}");
    plain.remove(key).expect(rt, "a record less")
}

fn plain_copy(rt: &impl Abort, plain: &PlainCatalog<Item>) -> PlainCatalog<Item> {
    plain.try_clone().expect(rt, "a copy")
}

/// The change to a catalog, where it can be made: a record more, another value or a removal.
fn changed(
    rt: &impl Abort,
    alloc: Global,
    catalog: Catalog<Item>,
    is_removal: bool,
    name: &str,
    value: u32,
) -> Catalog<Item> {
    match catalog.key(name) {
        None => add(rt, alloc, catalog, name, value).0,
        Some(key) if is_removal => take(rt, catalog, key),
        Some(key) => put(rt, alloc, catalog, key, name, value),
    }
}

/// The same change to a plain one.
fn plain_changed(
    rt: &impl Abort,
    alloc: Global,
    plain: PlainCatalog<Item>,
    is_removal: bool,
    name: &str,
    value: u32,
) -> PlainCatalog<Item> {
    match plain.key(name) {
        None => plain_add(rt, alloc, plain, name, value),
        Some(key) if is_removal => plain_take(rt, plain, key),
        Some(key) => plain_put(rt, alloc, plain, key, name, value),
    }
}

fn check_same(rt: &impl Abort, catalog: &Catalog<Item>, plain: &PlainCatalog<Item>) {
    equal(rt, "number of records", catalog.len(), plain.len());
    for place in 0..plain.len() {
        let wanted = plain.record_at_place(place);
        check_record(rt, catalog, place, wanted.name(), wanted.value);
    }
}

/// A catalog, and its plain form.
#[derive(Drop)]
struct Pair {
    catalog: Catalog<Item>,
    plain: PlainCatalog<Item>,
}

fn copied(rt: &impl Abort, pair: &Pair) -> Pair {
    Pair {
        catalog: copy(rt, &pair.catalog),
        plain: plain_copy(rt, &pair.plain),
    }
}

/// So many random changes of both, of which so many of eight take a record away where there is one of that name. They are the
/// same then.
fn go_on(
    rt: &impl Abort,
    alloc: Global,
    pair: Pair,
    start: u64,
    count: u32,
    removals: u64,
) -> Pair {
    let Pair {
        mut catalog,
        mut plain,
    } = pair;
    let mut seed = start;
    for i in 0..count {
        seed = seed
            .wrapping_mul(6_364_136_223_846_793_005)
            .wrapping_add(1_442_695_040_888_963_407);
        let name = numbered(rt, alloc, "n", (seed >> 33) % 24);
        let is_removal = (seed >> 48) % 8 < removals;
        catalog = changed(rt, alloc, catalog, is_removal, name.as_str(), i);
        plain = plain_changed(rt, alloc, plain, is_removal, name.as_str(), i);
        if i % 16 == 15 {
            catalog = closed_up(rt, catalog);
            check_same(rt, &catalog, &plain);
        }
    }
    check_same(rt, &catalog, &plain);
    Pair { catalog, plain }
}

/// A copy is held while nothing was taken away yet, and one later. Each goes on, with changes of its own.
#[test]
fn random_changes_make_of_copies_what_they_make_of_their_plain_forms(rt: HostRuntime) {
    let alloc = rt.alloc();
    let pair = Pair {
        catalog: Catalog::new(alloc, NameHasher::fixed()),
        plain: PlainCatalog::new(alloc, NameHasher::fixed()),
    };
    let grown = go_on(&rt, alloc, pair, 20_261, 40, 0);
    let first = copied(&rt, &grown);
    let pair = go_on(&rt, alloc, grown, 20_262, 200, 5);
    let second = copied(&rt, &pair);
    let pair = go_on(&rt, alloc, pair, 20_263, 200, 5);
    let second = go_on(&rt, alloc, second, 20_264, 200, 5);
    let first = go_on(&rt, alloc, first, 20_265, 40, 0);
    let first = go_on(&rt, alloc, first, 20_266, 200, 5);
    check_same(&rt, &pair.catalog, &pair.plain);
    check_same(&rt, &second.catalog, &second.plain);
    drop(first);
    drop(second);
    drop(pair);
}
