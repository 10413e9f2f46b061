//! Hubs on one thread. What is done to a hub, an editor or a viewer stands in a helper of its own: the proof of a body grows
//! with all that the body owns.

ghost use Rattle.std.specs.Prelude.{◌≡◌};

use super::buffers::{bench, check, stim};
use crate::compare::equal;
use bench::Snapshot;
use fourstate::Value;
use gatestep::Serial;
use hub::{Editor, Hub, HubName, Log, LookFault, Parts, Receipt, Viewer};
use std::alloc::Global;
use std::marker::Brand;
use std::process::Abort;
use std::sync::ledger::Ledger;
use std::sync::{Arc, Wait};

/// The first commit to a hub is accepted and shown.
fn submit<J: HubName, L: Ledger, M: Ledger, R: Wait + Abort>(
    rt: &R,
    alloc: Global,
    hub: &Hub<J, L, M, Serial, &R>,
    editor: &mut Editor<J, L, M>,
) -> Receipt<J>
    ensures { editor.new.number ≡ editor.old.number }
{
    let edits = [stim(rt, alloc, "a", 0, Value::Zero)];
    let receipt = hub.submit(rt, editor, &edits);
    drop(edits);
    equal(rt, "reply", receipt.reply, Ok(1));
    assert!(rt; receipt.shown);
    receipt
}

fn look<J: HubName>(rt: &impl Abort, viewer: &mut Viewer<J>) -> Arc<Snapshot> {
    viewer.look().expect(rt, "a snapshot")
}

/// The snapshot before any commit.
fn look_first<J: HubName>(rt: &impl Abort, viewer: &mut Viewer<J>) -> Arc<Snapshot> {
    let held = look(rt, viewer);
    equal(rt, "version", held.version(), 0);
    held
}

/// A viewer that was told of the commit sees it.
fn check_told<J: HubName>(rt: &impl Abort, viewer: &mut Viewer<J>, receipt: Receipt<J>) {
    viewer.learn(receipt);
    let seen = look(rt, viewer);
    assert!(rt; seen.version() >= 1);
    check(rt, &seen, 2, 3, Value::Zero);
    drop(seen);
}

/// A viewer that was told of nothing sees the commit, since it is shown.
fn check_again<J: HubName>(rt: &impl Abort, viewer: &mut Viewer<J>) {
    let again = look(rt, viewer);
    equal(rt, "version", again.version(), 1);
    drop(again);
}

fn check_closed<J: HubName>(rt: &impl Abort, viewer: &mut Viewer<J>) {
    equal(
        rt,
        "fault of look",
        viewer.look().err(),
        Some(LookFault::Closed),
    );
}

/// The log has the one commit of the first editor.
fn check_log<J: HubName>(rt: &impl Abort, log: Log<J>) {
    assert!(rt; log.shown);
    assert!(rt; log.commits.len() == 1);
    equal(rt, "editor", log.commits[0].editor, 0);
    drop(log);
}

/// The first viewer holds its first snapshot over a commit, and the second learns of it.
fn commit_beside<J: HubName, L: Ledger, M: Ledger, R: Wait + Abort>(
    rt: &R,
    alloc: Global,
    hub: &Hub<J, L, M, Serial, &R>,
    editor: &mut Editor<J, L, M>,
    first: &mut Viewer<J>,
    second: &mut Viewer<J>,
) -> Arc<Snapshot>
    ensures { editor.new.number ≡ editor.old.number }
{
    let held = look_first(rt, first);
    let receipt = submit(rt, alloc, hub, editor);
    check_told(rt, second, receipt);
    check(rt, &held, 1, 0, Value::Unknown);
    check_again(rt, first);
    held
}

// A viewer holds its first snapshot over a commit, another one learns of it, and the hub ends.
fn row<J: HubName, L: Ledger, M: Ledger, R: Wait + Abort>(
    rt: &R,
    alloc: Global,
    parts: Parts<Serial>,
)
    requires names { (parts.origin ≡ J.origin) × (parts.book ≡ J.book) }
    requires first { (parts.first_name ≡ L.name) × (parts.first_parts ≡ L.parts) }
    requires second { (parts.second_name ≡ M.name) × (parts.second_parts ≡ M.parts) }
{
    let opened = Hub::<J, L, M, Serial, &R>::open(rt, parts);
    let (hub, (mut editor, other), mut viewers) = opened.expect(rt, "a hub");
    let mut second = viewers.pop().expect(rt, "a viewer");
    let mut first = viewers.pop().expect(rt, "a viewer");
    drop(viewers);
    let held = commit_beside(rt, alloc, &hub, &mut editor, &mut first, &mut second);
    equal(rt, "count", editor.count(), 1);
    equal(rt, "count", other.count(), 0);
    check_log(rt, hub.close((editor, other)));
    check_closed(rt, &mut first);
    check(rt, &held, 1, 0, Value::Unknown);
    drop(held);
    drop(first);
    drop(second);
}

#[test]
fn a_row(rt: HostRuntime) {
    let bench = bench(&rt, rt.alloc());
    let parts = Parts::new(&rt, rt.alloc(), bench, 2).expect(&rt, "parts");
    row::<Brand, Brand, Brand, _>(&rt, rt.alloc(), parts);
}

// A hub that is dropped and not closed: viewers see nothing more, whether they were told of its commit or not.
fn dropped<J: HubName, L: Ledger, M: Ledger, R: Wait + Abort>(
    rt: &R,
    alloc: Global,
    parts: Parts<Serial>,
)
    requires names { (parts.origin ≡ J.origin) × (parts.book ≡ J.book) }
    requires first { (parts.first_name ≡ L.name) × (parts.first_parts ≡ L.parts) }
    requires second { (parts.second_name ≡ M.name) × (parts.second_parts ≡ M.parts) }
{
    let opened = Hub::<J, L, M, Serial, &R>::open(rt, parts);
    let (hub, (mut editor, other), mut viewers) = opened.expect(rt, "a hub");
    let mut viewer = viewers.pop().expect(rt, "a viewer");
    let receipt = submit(rt, alloc, &hub, &mut editor);
    drop(hub);
    check_closed(rt, &mut viewer);
    viewer.learn(receipt);
    check_closed(rt, &mut viewer);
    drop(viewer);
    drop(viewers);
    drop(editor);
    drop(other);
}

#[test]
fn a_dropped_hub(rt: HostRuntime) {
    let bench = bench(&rt, rt.alloc());
    let parts = Parts::new(&rt, rt.alloc(), bench, 1).expect(&rt, "parts");
    dropped::<Brand, Brand, Brand, _>(&rt, rt.alloc(), parts);
}
