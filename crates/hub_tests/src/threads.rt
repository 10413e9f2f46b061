//! Hubs whose editors and viewers are in threads of their own.

ghost use Rattle.std.specs.Prelude.{◌≡◌};

use super::buffers::{NETS, bench, check};
use super::commits::{Plan, edit};
use super::looks::{Watched, firsts_of, is_logged, look, watch};
use crate::compare::equal;
use bench::Snapshot;
use crossbeam_channel::{Receiver, Sender, unbounded};
use fourstate::Value;
use gatestep::Serial;
use hub::{Editor, Hub, HubName, LookFault, Parts, Receipt, Viewer};
use std::alloc::Global;
use std::marker::Brand;
use std::process::Abort;
use std::sync::ledger::Ledger;
use std::sync::{Arc, Wait};
use std::thread;
use std::thread::{Promise, Threads};

/// A promise that the result is the editor of this number.
#[derive(Clone, Copy)]
struct Numbered(u32);

impl<J: HubName, L: Ledger, M: Ledger> Promise<Editor<J, L, M>> for Numbered {
    ghost kept_by = { λ p editor. editor.number ≡ p.0 };
}

/// Both editors and what the viewers saw, once their threads have ended.
type Ended<J, L, M> = ((Editor<J, L, M>, Editor<J, L, M>), Vec<Watched<J>>);

// An editor in each of two threads, and each viewer in one of its own.
fn run<
    J: HubName + Send + Sync,
    L: Ledger + Send + Sync,
    M: Ledger + Send + Sync,
    R: Threads + Wait + Abort + Sync,
>(
    rt: &R,
    alloc: Global,
    hub: &Hub<J, L, M, Serial, &R>,
    editors: (Editor<J, L, M>, Editor<J, L, M>),
    viewers: Vec<Viewer<J>>,
    channel: (&Sender<Receipt<J>>, &Receiver<Receipt<J>>),
    plan: Plan,
) -> Ended<J, L, M>
    requires { (editors.0.number ≡ 0) × (editors.1.number ≡ 1) }
    ensures { (result.0.0.number ≡ 0) × (result.0.1.number ≡ 1) }
{
    let (one, other) = editors;
    let (sender, receiver) = channel;
    thread::scope(
        thread::scope_env(),
        rt,
        move |scope| -> Ended<J, L, M>
            requires { (one.number ≡ 0) × (other.number ≡ 1) }
            ensures { (result.0.0.number ≡ 0) × (result.0.1.number ≡ 1) }
        {
            let mut watching = Vec::new(alloc);
            for viewer in viewers {
                let child = scope.spawn(move || watch(rt, alloc, viewer, receiver, plan));
                watching
                    .push(child.expect(rt, "a thread"))
                    .expect(rt, "room");
            }
            let first = scope.spawn_with(
                Numbered(0),
                move || edit(rt, alloc, hub, one, sender, plan.commits),
            );
            let first = first.expect(rt, "a thread");
            let second = scope.spawn_with(
                Numbered(1),
                move || edit(rt, alloc, hub, other, sender, plan.commits),
            );
            let second = second.expect(rt, "a thread");
            let one = first.join(rt);
            let other = second.join(rt);
            let mut watched = Vec::new(alloc);
            for child in watching {
                watched.push(child.join(rt)).expect(rt, "room");
            }
            ((one, other), watched)
        },
    )
}

// No look was wrong, and a viewer that learns of nothing more sees all commits.
fn look_last<J: HubName>(rt: &impl Abort, watched: &mut Watched<J>, plan: Plan) {
    let all = look(rt, &mut watched.viewer);
    equal(rt, "wrong", watched.wrong, 0);
    equal(rt, "version", all.version(), plan.commits.wrapping_mul(2));
    drop(all);
}

// What each look had is what the log says, and a hub that has ended shows nothing.
fn check_end<J: HubName>(rt: &impl Abort, watched: &mut Watched<J>, firsts: &[u64], plan: Plan) {
    equal(
        rt,
        "closed",
        watched.viewer.look().err(),
        Some(LookFault::Closed),
    );
    equal(rt, "looks", watched.looks.len() as u64, plan.looks);
    for counts in watched.looks.iter() {
        equal(rt, "logged", is_logged(*counts, firsts), true);
    }
}

// The snapshot before any commit.
fn check_first(rt: &impl Abort, held: &Snapshot) {
    equal(rt, "version", held.version(), 0);
    equal(rt, "nets", held.design().net_count(), NETS);
    check(rt, held, 1, 0, Value::Unknown);
}

// A viewer's first snapshot.
fn hold<J: HubName>(rt: &impl Abort, viewers: &mut Vec<Viewer<J>>) -> Arc<Snapshot> {
    let viewer = viewers.first_mut().expect(rt, "a viewer");
    look(rt, viewer)
}

fn race<
    J: HubName + Send + Sync,
    L: Ledger + Send + Sync,
    M: Ledger + Send + Sync,
    R: Threads + Wait + Abort + Sync,
>(rt: &R, alloc: Global, parts: Parts<Serial>, plan: Plan)
    requires names { (parts.origin ≡ J.origin) × (parts.book ≡ J.book) }
    requires first { (parts.first_name ≡ L.name) × (parts.first_parts ≡ L.parts) }
    requires second { (parts.second_name ≡ M.name) × (parts.second_parts ≡ M.parts) }
{
    let (sender, receiver) = unbounded(alloc).expect(rt, "a channel");
    let opened = Hub::<J, L, M, Serial, &R>::open(rt, parts);
    let (hub, editors, mut viewers) = opened.expect(rt, "a hub");
    let held = hold(rt, &mut viewers);
    let channel = (&sender, &receiver);
    let (editors, mut watched) = run(rt, alloc, &hub, editors, viewers, channel, plan);
    for one in watched.iter_mut() {
        look_last(rt, one, plan);
    }
    let log = hub.close(editors);
    equal(rt, "shown", log.shown, true);
    let firsts = firsts_of(rt, alloc, &log, plan.commits);
    for one in watched.iter_mut() {
        check_end(rt, one, firsts.as_slice(), plan);
    }
    drop(firsts);
    check_first(rt, &held);
    drop(held);
    drop(log);
    drop(watched);
}

fn race_of<R: Threads + Wait + Abort + Sync>(rt: &R, alloc: Global, viewers: u32, plan: Plan) {
    let bench = bench(rt, alloc);
    let parts = Parts::new(rt, alloc, bench, viewers).expect(rt, "parts");
    race::<Brand, Brand, Brand, _>(rt, alloc, parts, plan);
}

// More looks than commits, one upon the other.
#[test]
fn two_editors_and_eight_viewers(rt: HostRuntime) {
    let plan = Plan {
        commits: 40,
        looks: 1250,
        waits: false,
    };
    race_of(&rt, rt.alloc(), 8, plan);
}

// A look for each receipt, but for the last ones.
#[test]
fn ten_thousand_commits_and_sixty_four_viewers(rt: HostRuntime) {
    let plan = Plan {
        commits: 5000,
        looks: 150,
        waits: true,
    };
    race_of(&rt, rt.alloc(), 64, plan);
}
