//! A hub whose pool loses its worker, and that is given another pool.

ghost use Rattle.std.specs.Prelude.{◌≡◌};

use super::buffers::{bench_with, check, stim};
use crate::compare::equal;
use bench::CommitFault;
use fourstate::Value;
use gatestep::{StepFault, Stepper};
use hub::{Editor, Hub, HubName, Parts, Viewer};
use parstep::{Pool, Probe};
use std::alloc::Global;
use std::marker::Brand;
use std::process::Abort;
use std::sync::atomic::{AtomicBool, Ordering};
use std::sync::ledger::Ledger;
use std::sync::{Arc, Wait};
use std::thread::Threads;

/// Ends its worker at the next piece while a flag is set.
#[derive(Drop)]
struct Ending {
    flag: Arc<AtomicBool>,
}

impl Probe for Ending {
    fn at(&self, _piece: u32) -> bool {
        !self.flag.load(Ordering::SeqCst)
    }

    fn done(&self, _piece: u32) {}
}

/// A pool of one worker.
fn pool<R: Threads + Wait + Abort + Copy + Drop + Send + 'static>(
    rt: R,
    alloc: Global,
    flag: &Arc<AtomicBool>,
) -> Pool<Ending, R> {
    let flag = Arc::try_clone(flag).expect(&rt, "a share of the flag");
    Pool::open(rt, alloc, 1, Ending { flag }).expect(&rt, "a pool")
}

/// A commit that stirs a gate has this reply, and the editor then so many commits. All of them are shown.
fn submit<J: HubName, L: Ledger, M: Ledger, S: Stepper + Drop, R: Wait + Abort + Drop>(
    rt: &R,
    alloc: Global,
    hub: &Hub<J, L, M, S, R>,
    editor: &mut Editor<J, L, M>,
    wanted: Result<u64, CommitFault>,
    count: u64,
) {
    let edits = [stim(rt, alloc, "a", 0, Value::Zero)];
    let receipt = hub.submit(rt, editor, &edits);
    drop(edits);
    equal(rt, "reply", receipt.reply, wanted);
    equal(rt, "shown", receipt.shown, true);
    equal(rt, "count", editor.count(), count);
    drop(receipt);
}

/// A commit that the worker does not answer is refused, and so is each one after it.
fn lose_the_worker<J: HubName, L: Ledger, M: Ledger, S: Stepper + Drop, R: Wait + Abort + Drop>(
    rt: &R,
    alloc: Global,
    hub: &Hub<J, L, M, S, R>,
    editor: &mut Editor<J, L, M>,
    flag: &AtomicBool,
) {
    let lost = Err(CommitFault::WorkerLost);
    flag.store(true, Ordering::SeqCst);
    submit(rt, alloc, hub, editor, lost, 0);
    flag.store(false, Ordering::SeqCst);
    submit(rt, alloc, hub, editor, lost, 0);
}

/// The wave of `y` has so many changes, and this is the last one.
fn look<J: HubName>(
    rt: &impl Abort,
    viewer: &mut Viewer<J>,
    count: usize,
    time: u64,
    value: Value,
) {
    let seen = viewer.look().expect(rt, "a snapshot");
    check(rt, &seen, count, time, value);
    drop(seen);
}

/// A stepper has lost its worker.
fn check_lost<S: Stepper>(rt: &impl Abort, alloc: Global, stepper: &mut S) {
    let reply = stepper.step(&[], 0, &mut Vec::new(alloc));
    equal(rt, "step", reply, Err(StepFault::WorkerLost));
}

fn go_on<
    J: HubName,
    L: Ledger,
    M: Ledger,
    R: Threads + Wait + Abort + Copy + Drop + Send + 'static,
>(rt: R, alloc: Global, parts: Parts<Pool<Ending, R>>, flag: &Arc<AtomicBool>)
    requires names { (parts.origin ≡ J.origin) × (parts.book ≡ J.book) }
    requires first { (parts.first_name ≡ L.name) × (parts.first_parts ≡ L.parts) }
    requires second { (parts.second_name ≡ M.name) × (parts.second_parts ≡ M.parts) }
{
    let opened = Hub::<J, L, M, Pool<Ending, R>, R>::open(rt, parts);
    let (hub, (mut editor, other), mut viewers) = opened.expect(&rt, "a hub");
    let mut viewer = viewers.pop().expect(&rt, "a viewer");
    lose_the_worker(&rt, alloc, &hub, &mut editor, flag);
    look(&rt, &mut viewer, 1, 0, Value::Unknown);
    let mut lost = hub.restep(&rt, pool(rt, alloc, flag));
    submit(&rt, alloc, &hub, &mut editor, Ok(1), 1);
    look(&rt, &mut viewer, 2, 3, Value::Zero);
    check_lost(&rt, alloc, &mut lost);
    drop(lost);
    drop(hub);
    drop(viewer);
    drop(viewers);
    drop(editor);
    drop(other);
}

#[test]
fn another_pool_in_the_place_of_a_lost_one(rt: HostRuntime) {
    let flag = Arc::new(rt.alloc(), AtomicBool::new(false)).expect(&rt, "a flag");
    let bench = bench_with(&rt, rt.alloc(), pool(rt, rt.alloc(), &flag));
    let parts = Parts::new(&rt, rt.alloc(), bench, 1).expect(&rt, "parts");
    go_on::<Brand, Brand, Brand, _>(rt, rt.alloc(), parts, &flag);
}
