//! Hubs that end while viewers look.

ghost use Rattle.std.specs.Prelude.{◌≡◌};

use super::buffers::bench;
use super::commits::edit;
use crate::compare::equal;
use crossbeam_channel::{Sender, unbounded};
use gatestep::Serial;
use hub::{Editor, Hub, HubName, LookFault, Parts, Receipt, Viewer};
use std::alloc::Global;
use std::marker::Brand;
use std::process::Abort;
use std::sync::Wait;
use std::sync::ledger::Ledger;
use std::thread;
use std::thread::Threads;

// Whether a look finds that the hub has ended. No look is refused for another cause.
fn is_closed<J: HubName>(rt: &impl Abort, viewer: &mut Viewer<J>) -> bool {
    match viewer.look() {
        Ok(snapshot) => {
            drop(snapshot);
            false
        }
        Err(fault) => {
            equal(rt, "fault", fault, LookFault::Closed);
            true
        }
    }
}

// A viewer looks until the hub has ended, and then once more.
fn look_on<J: HubName, R: Wait + Abort>(rt: &R, viewer: Viewer<J>) -> Viewer<J> {
    let mut viewer = viewer;
    for _look in rt.forever() {
        if is_closed(rt, &mut viewer) {
            break;
        }
    }
    let still = is_closed(rt, &mut viewer);
    equal(rt, "closed", still, true);
    viewer
}

// The first editor makes its commits and the hub ends, while each viewer looks in a thread of its own.
fn end_beside<
    J: HubName + Send + Sync,
    L: Ledger + Send + Sync,
    M: Ledger + Send + Sync,
    R: Threads + Wait + Abort + Sync,
>(
    rt: &R,
    alloc: Global,
    hub: Hub<J, L, M, Serial, &R>,
    editors: (Editor<J, L, M>, Editor<J, L, M>),
    viewers: Vec<Viewer<J>>,
    sender: &Sender<Receipt<J>>,
) -> Vec<Viewer<J>>
    requires { (editors.0.number ≡ 0) × (editors.1.number ≡ 1) }
{
    let (one, other) = editors;
    thread::scope(
        thread::scope_env(),
        rt,
        move |scope| -> Vec<Viewer<J>>
            requires { (one.number ≡ 0) × (other.number ≡ 1) }
        {
            let mut looking = Vec::new(alloc);
            for viewer in viewers {
                let child = scope.spawn(move || look_on(rt, viewer));
                looking
                    .push(child.expect(rt, "a thread"))
                    .expect(rt, "room");
            }
            let one = edit(rt, alloc, &hub, one, sender, 40);
            drop(hub.close((one, other)));
            let mut viewers = Vec::new(alloc);
            for child in looking {
                viewers.push(child.join(rt)).expect(rt, "room");
            }
            viewers
        },
    )
}

fn outlive<
    J: HubName + Send + Sync,
    L: Ledger + Send + Sync,
    M: Ledger + Send + Sync,
    R: Threads + Wait + Abort + Sync,
>(rt: &R, alloc: Global, parts: Parts<Serial>)
    requires names { (parts.origin ≡ J.origin) × (parts.book ≡ J.book) }
    requires first { (parts.first_name ≡ L.name) × (parts.first_parts ≡ L.parts) }
    requires second { (parts.second_name ≡ M.name) × (parts.second_parts ≡ M.parts) }
{
    let (sender, receiver) = unbounded(alloc).expect(rt, "a channel");
    let opened = Hub::<J, L, M, Serial, &R>::open(rt, parts);
    let (hub, editors, viewers) = opened.expect(rt, "a hub");
    let mut viewers = end_beside(rt, alloc, hub, editors, viewers, &sender);
    equal(rt, "viewers", viewers.len(), 4);
    for viewer in viewers.iter_mut() {
        let closed = is_closed(rt, viewer);
        equal(rt, "closed", closed, true);
    }
    drop(receiver);
}

#[test]
fn viewers_outlive_a_hub(rt: HostRuntime) {
    let bench = bench(&rt, rt.alloc());
    let parts = Parts::new(&rt, rt.alloc(), bench, 4).expect(&rt, "parts");
    outlive::<Brand, Brand, Brand, _>(&rt, rt.alloc(), parts);
}
