//! Viewers and an editor in threads.

ghost use Rattle.std.specs.Prelude.{◌≡◌};

use super::looks::{Times, times_of};
use bench::Bench;
use design::Design;
use edits::Edit;
use gatestep::Serial;
use hub::{Editor, Hub, HubName, Parts, Viewer};
use std::alloc::Global;
use std::marker::Brand;
use std::sync::Wait;
use std::sync::atomic::{AtomicU64, Ordering};
use std::sync::ledger::Ledger;
use std::thread;
use std::thread::Threads;
use std::time::Clock;

/// The times of so many viewers over a hub of this design, and how many commits there were meanwhile: the two batches in turn,
/// or none where they have no edits.
pub fn run<R: Threads + Wait + Clock + Sync>(
    rt: &R,
    alloc: Global,
    design: Design,
    viewers: u32,
    batches: (Vec<Edit>, Vec<Edit>),
) -> Option<(Times, u64)> {
    let bench = Bench::open(alloc, design, Serial::new()).ok()?;
    let parts = Parts::new(rt, alloc, bench, viewers).ok()?;
    run_named::<Brand, Brand, Brand, R>(rt, alloc, parts, batches)
}

fn run_named<
    J: HubName + Send + Sync,
    L: Ledger + Send + Sync,
    M: Ledger + Send + Sync,
    R: Threads + Wait + Clock + Sync,
>(
    rt: &R,
    alloc: Global,
    parts: Parts<Serial>,
    batches: (Vec<Edit>, Vec<Edit>),
) -> Option<(Times, u64)>
    requires names { (parts.origin ≡ J.origin) × (parts.book ≡ J.book) }
    requires first { (parts.first_name ≡ L.name) × (parts.first_parts ≡ L.parts) }
    requires second { (parts.second_name ≡ M.name) × (parts.second_parts ≡ M.parts) }
{
    let (hub, (editor, _other), viewers) = Hub::<J, L, M, Serial, &R>::open(rt, parts).ok()?;
    let count = viewers.len() as u64;
    let ended = AtomicU64::new(0);
    let ended = &ended;
    let hub = &hub;
    thread::scope(
        thread::scope_env(),
        rt,
        move |scope| -> Option<(Times, u64)> {
            let mut looking = Vec::new(alloc);
            for viewer in viewers {
                let child = scope.spawn(move || look(rt, alloc, viewer, ended)).ok()?;
                looking.push(child).ok()?;
            }
            let commits = commit(rt, hub, editor, &batches, (ended, count));
            let mut all = None;
            for child in looking {
                all = joined(all, child.join(rt)?);
            }
            Some((all?, commits))
        },
    )
}

// The times of a viewer, whose end is counted.
fn look<J: HubName, R: Clock>(
    rt: &R,
    alloc: Global,
    viewer: Viewer<J>,
    ended: &AtomicU64,
) -> Option<Times> {
    let times = times_of(rt, alloc, viewer);
    ended.fetch_add(1, Ordering::SeqCst);
    times
}

// Commits the batches in turn until so many viewers have ended, and tells how many commits there were.
fn commit<J: HubName, L: Ledger, M: Ledger, R: Wait>(
    rt: &R,
    hub: &Hub<J, L, M, Serial, &R>,
    editor: Editor<J, L, M>,
    batches: &(Vec<Edit>, Vec<Edit>),
    until: (&AtomicU64, u64),
) -> u64 {
    let (ended, count) = until;
    let mut editor = editor;
    if batches.0.is_empty() {
        return 0;
    }
    for _commit in rt.forever() {
        if ended.load(Ordering::SeqCst) >= count {
            break;
        }
        drop(hub.submit(rt, &mut editor, &batches.0));
        drop(hub.submit(rt, &mut editor, &batches.1));
    }
    editor.count()
}

// The longest times of two viewers, and their looks together.
fn joined(one: Option<Times>, other: Times) -> Option<Times> {
    let Some(one) = one else {
        return Some(other);
    };
    Some(Times {
        half: one.half.max(other.half),
        most: one.most.max(other.most),
        slow: one.slow.saturating_add(other.slow),
        second: one.second.saturating_add(other.second),
    })
}
