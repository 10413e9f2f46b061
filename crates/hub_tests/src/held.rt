//! Viewers that look while a commit is held in a worker.

ghost use Rattle.std.specs.Prelude.{◌≡◌};

use super::buffers::{bench_with, check, stim};
use super::looks::look;
use crate::compare::equal;
use fourstate::Value;
use hub::{Editor, Hub, HubName, Parts, Receipt, Viewer};
use parstep::{Pool, Probe};
use std::alloc::Global;
use std::marker::Brand;
use std::process::Abort;
use std::sync::atomic::{AtomicBool, AtomicU64, Ordering};
use std::sync::ledger::Ledger;
use std::sync::{Arc, Wait};
use std::thread;
use std::thread::Threads;
use std::time::Duration;

/// How often a wait looks before it gives up.
const MOST_LOOKS: u32 = 400;

/// Sleeps until a count is so high, for 10 seconds or so at most. Each change of the count wakes it.
fn reach(rt: &impl Wait, count: &AtomicU64, wanted: u32) -> bool {
    for _ in 0..MOST_LOOKS {
        let Ok(now) = u32::try_from(count.load(Ordering::SeqCst)) else {
            return false;
        };
        if now >= wanted {
            return true;
        }
        count.park_timeout(rt, now, Duration::from_millis(25));
    }
    false
}

/// Counts one more, and wakes who waits for it.
fn raise(count: &AtomicU64) {
    count.fetch_add(1, Ordering::SeqCst);
    count.wake_all();
}

/// What a commit that is held waits for.
#[derive(Drop)]
struct Hold {
    /// Whether pieces are held.
    is_armed: AtomicBool,
    /// How many pieces were held.
    held: AtomicU64,
    /// How many looks were answered.
    looks: AtomicU64,
    /// How many looks have to be.
    wanted: u32,
}

/// Holds each piece until the looks were answered, and ends the worker where they are not.
#[derive(Drop)]
struct Holding<R: Wait + Drop> {
    rt: R,
    hold: Arc<Hold>,
}

impl<R: Wait + Drop> Probe for Holding<R> {
    fn at(&self, _piece: u32) -> bool {
        if !self.hold.is_armed.load(Ordering::SeqCst) {
            return true;
        }
        raise(&self.hold.held);
        reach(&self.rt, &self.hold.looks, self.hold.wanted)
    }

    fn done(&self, _piece: u32) {}
}

/// A viewer that looks once a commit is held sees what was before it.
fn look_beside<J: HubName, R: Wait + Abort>(rt: &R, hold: &Hold, viewer: Viewer<J>) -> Viewer<J> {
    let mut viewer = viewer;
    let is_held = reach(rt, &hold.held, 1);
    let seen = look(rt, &mut viewer);
    raise(&hold.looks);
    equal(rt, "held", is_held, true);
    equal(rt, "version", seen.version(), 0);
    check(rt, &seen, 1, 0, Value::Unknown);
    drop(seen);
    viewer
}

/// The commit, which makes steps, is accepted and shown.
fn submit<J: HubName, L: Ledger, M: Ledger, R: Wait + Abort + Copy + Drop>(
    rt: R,
    alloc: Global,
    hub: &Hub<J, L, M, Pool<Holding<R>, R>, R>,
    editor: &mut Editor<J, L, M>,
) -> Receipt<J> {
    let edits = [stim(&rt, alloc, "a", 0, Value::Zero)];
    let receipt = hub.submit(&rt, editor, &edits);
    drop(edits);
    equal(&rt, "reply", receipt.reply, Ok(1));
    equal(&rt, "shown", receipt.shown, true);
    receipt
}

/// The commit is made while each viewer looks in a thread of its own.
fn commit_beside<
    J: HubName + Send + Sync,
    L: Ledger,
    M: Ledger,
    R: Threads + Wait + Abort + Copy + Drop + Send + Sync + 'static,
>(
    rt: &R,
    alloc: Global,
    hub: &Hub<J, L, M, Pool<Holding<R>, R>, R>,
    editor: Editor<J, L, M>,
    viewers: Vec<Viewer<J>>,
    hold: &Hold,
) -> Vec<Viewer<J>> {
    thread::scope(thread::scope_env(), rt, move |scope| -> Vec<Viewer<J>> {
        let mut editor = editor;
        let mut looking = Vec::new(alloc);
        for viewer in viewers {
            let child = scope.spawn(move || look_beside(rt, hold, viewer));
            looking
                .push(child.expect(rt, "a thread"))
                .expect(rt, "room");
        }
        drop(submit(*rt, alloc, hub, &mut editor));
        let mut viewers = Vec::new(alloc);
        for child in looking {
            viewers.push(child.join(rt)).expect(rt, "room");
        }
        viewers
    })
}

/// A viewer that looks after the commit sees it.
fn look_after<J: HubName>(rt: &impl Abort, viewer: &mut Viewer<J>) {
    let seen = look(rt, viewer);
    equal(rt, "version", seen.version(), 1);
    check(rt, &seen, 2, 3, Value::Zero);
    drop(seen);
}

fn hold_a_commit<
    J: HubName + Send + Sync,
    L: Ledger,
    M: Ledger,
    R: Threads + Wait + Abort + Copy + Drop + Send + Sync + 'static,
>(rt: R, alloc: Global, parts: Parts<Pool<Holding<R>, R>>, hold: &Hold)
    requires names { (parts.origin ≡ J.origin) × (parts.book ≡ J.book) }
    requires first { (parts.first_name ≡ L.name) × (parts.first_parts ≡ L.parts) }
    requires second { (parts.second_name ≡ M.name) × (parts.second_parts ≡ M.parts) }
{
    let opened = Hub::<J, L, M, Pool<Holding<R>, R>, R>::open(rt, parts);
    let (hub, (editor, other), viewers) = opened.expect(&rt, "a hub");
    hold.is_armed.store(true, Ordering::SeqCst);
    let mut viewers = commit_beside(&rt, alloc, &hub, editor, viewers, hold);
    for viewer in viewers.iter_mut() {
        look_after(&rt, viewer);
    }
    drop(hub);
    drop(viewers);
    drop(other);
}

fn hold_before<R: Threads + Wait + Abort + Copy + Drop + Send + Sync + 'static>(
    rt: R,
    alloc: Global,
    viewers: u32,
) {
    let hold = Hold {
        is_armed: AtomicBool::new(false),
        held: AtomicU64::new(0),
        looks: AtomicU64::new(0),
        wanted: viewers,
    };
    let hold = Arc::new(alloc, hold).expect(&rt, "a hold");
    let shared = Arc::try_clone(&hold).expect(&rt, "a share of the hold");
    let probe = Holding { rt, hold: shared };
    let pool = Pool::open(rt, alloc, 1, probe).expect(&rt, "a pool");
    let bench = bench_with(&rt, alloc, pool);
    let parts = Parts::new(&rt, alloc, bench, viewers).expect(&rt, "parts");
    hold_a_commit::<Brand, Brand, Brand, _>(rt, alloc, parts, &hold);
}

#[test]
fn a_look_beside_a_held_commit(rt: HostRuntime) {
    hold_before(rt, rt.alloc(), 1);
}

#[test]
fn sixty_four_looks_beside_a_held_commit(rt: HostRuntime) {
    hold_before(rt, rt.alloc(), 64);
}
