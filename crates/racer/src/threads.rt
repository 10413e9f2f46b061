//! The threads of a race.

ghost use Rattle.std.specs.Prelude.{◌≡◌, ◌≤◌, ◌*◌, ◌+◌, ◌<◌, ◌^◌, All, IfOk, length, vec_len};
ghost use Rattle.racer.specs.Tallies.{Counts, tally_of};
ghost use Rattle.racer.specs.kept.Threads.{looking, submitting};

use crate::hand::Hand;
use crate::look::{Watched, watch};
use crate::settled::Settled;
use crate::submit::{Played, play};
use crate::tally::Tally;
use gatestep::Serial;
use hub::{Editor, Hub, HubName, Parts, Viewer};
use std::alloc::{AllocError, Global};
use std::marker::Brand;
use std::sync::Wait;
use std::sync::ledger::Ledger;
use std::thread;
use std::thread::{Promise, PromisedHandle, Scope, Threads};

/// A promise of how many looks a viewer's thread counts.
#[derive(Clone, Copy)]
pub struct Looking {
    looks: u64,
}

impl<J: HubName> Promise<Watched<J>> for Looking {
    ghost use Rattle.racer.specs.Tallies.{Counts};

    ghost kept_by = { λ p watched. Counts 0 p.looks 0 watched.tally };
}

/// A promise of which editor's thread it is, and how many commits it counts as submitted.
#[derive(Clone, Copy)]
pub struct Submitting {
    number: u32,
    submits: u64,
}

impl<J: HubName, L: Ledger, M: Ledger> Promise<Played<J, L, M>> for Submitting {
    ghost use Rattle.std.specs.Prelude.{◌≡◌};
    ghost use Rattle.racer.specs.Tallies.{Counts};

    ghost kept_by = { λ p played. (played.editor.number ≡ p.number) × Counts 0 0 p.submits played.tally };
}

/// The threads of the viewers and of both editors.
#[derive(Drop)]
struct Threaded<J: HubName, L: Ledger, M: Ledger> {
    viewers: Vec<PromisedHandle<Watched<J>, Looking>>,
    first: PromisedHandle<Played<J, L, M>, Submitting>,
    second: PromisedHandle<Played<J, L, M>, Submitting>,
}

/// Two editors submit the commits of these hands in threads of their own, while each viewer looks so many times in its own: what
/// all of them count.
pub fn run<R: Threads + Wait + Sync>(
    rt: &R,
    alloc: Global,
    parts: Parts<Serial>,
    hands: (Hand, Hand),
    looks: u32,
) -> Result<Tally, AllocError>
    requires few { parts.viewers ≤ 64 }
    requires numbers { (hands.0.number ≡ 0) × (hands.1.number ≡ 1) }
    requires room { length hands.0.commits + length hands.1.commits < 2 ^ 64 }
    ensures { IfOk result (Counts parts.viewers (parts.viewers * looks) (length hands.0.commits + length hands.1.commits)) }
{
    run_named::<Brand, Brand, Brand, R>(rt, alloc, parts, hands, looks)
}

fn run_named<
    J: HubName + Send + Sync,
    L: Ledger + Send + Sync,
    M: Ledger + Send + Sync,
    R: Threads + Wait + Sync,
>(
    rt: &R,
    alloc: Global,
    parts: Parts<Serial>,
    hands: (Hand, Hand),
    looks: u32,
) -> Result<Tally, AllocError>
    requires names { (parts.origin ≡ J.origin) × (parts.book ≡ J.book) }
    requires first { (parts.first_name ≡ L.name) × (parts.first_parts ≡ L.parts) }
    requires second { (parts.second_name ≡ M.name) × (parts.second_parts ≡ M.parts) }
    requires few { parts.viewers ≤ 64 }
    requires numbers { (hands.0.number ≡ 0) × (hands.1.number ≡ 1) }
    requires room { length hands.0.commits + length hands.1.commits < 2 ^ 64 }
    ensures { IfOk result (Counts parts.viewers (parts.viewers * looks) (length hands.0.commits + length hands.1.commits)) }
{
    match Hub::<J, L, M, Serial, &R>::open(rt, parts) {
        Ok((hub, editors, viewers)) => {
            let threads = run_in(rt, alloc, &hub, editors, viewers, hands, looks)?;
            Ok(settle(rt, hub, threads, looks))
        }
        Err(_) => Err(AllocError),
    }
}

// Starts all threads, and returns once each of them has ended.
fn run_in<
    J: HubName + Send + Sync,
    L: Ledger + Send + Sync,
    M: Ledger + Send + Sync,
    R: Threads + Wait + Sync,
>(
    rt: &R,
    alloc: Global,
    hub: &Hub<J, L, M, Serial, &R>,
    editors: (Editor<J, L, M>, Editor<J, L, M>),
    viewers: Vec<Viewer<J>>,
    hands: (Hand, Hand),
    looks: u32,
) -> Result<Threaded<J, L, M>, AllocError>
    requires first { editors.0.number ≡ hands.0.number }
    requires second { editors.1.number ≡ hands.1.number }
    ensures count { IfOk result (λ threads. vec_len threads.viewers ≡ vec_len viewers) }
    ensures viewers { IfOk result (λ threads. All (λ handle. handle.promise ≡ looking looks) threads.viewers.items) }
    ensures first { IfOk result (λ threads. threads.first.promise ≡ submitting hands.0.number (length hands.0.commits)) }
    ensures second { IfOk result (λ threads. threads.second.promise ≡ submitting hands.1.number (length hands.1.commits)) }
{
    let (one, other) = editors;
    let (first, second) = hands;
    thread::scope(
        thread::scope_env(),
        rt,
        move |scope| -> Result<Threaded<J, L, M>, AllocError>
            requires { (one.number ≡ first.number) × (other.number ≡ second.number) }
            ensures count { IfOk result (λ threads. vec_len threads.viewers ≡ vec_len viewers) }
            ensures viewers { IfOk result (λ threads. All (λ handle. handle.promise ≡ looking looks) threads.viewers.items) }
            ensures first { IfOk result (λ threads. threads.first.promise ≡ submitting first.number (length first.commits)) }
            ensures second { IfOk result (λ threads. threads.second.promise ≡ submitting second.number (length second.commits)) }
        {
            let viewers = start_viewers(scope, alloc, viewers, looks)?;
            let first = start_editor(scope, rt, hub, one, first)?;
            let second = start_editor(scope, rt, hub, other, second)?;
            Ok(Threaded {
                viewers,
                first,
                second,
            })
        },
    )
}

// Starts a thread for each viewer, which looks so many times.
fn start_viewers<'s, E, J: HubName + Send + 's>(
    scope: &Scope<'s, E>,
    alloc: Global,
    viewers: Vec<Viewer<J>>,
    looks: u32,
) -> Result<Vec<PromisedHandle<Watched<J>, Looking>>, AllocError>
    ensures count { IfOk result (λ watching. vec_len watching ≡ vec_len viewers) }
    ensures each { IfOk result (λ watching. All (λ handle. handle.promise ≡ looking looks) watching.items) }
{
    let mut watching = Vec::new(alloc);
    'viewers: for viewer in viewers {
        let child = start_viewer(scope, alloc, viewer, looks)?;
        watching.push(child)?;
    }
    Ok(watching)
}

fn start_viewer<'s, E, J: HubName + Send + 's>(
    scope: &Scope<'s, E>,
    alloc: Global,
    viewer: Viewer<J>,
    looks: u32,
) -> Result<PromisedHandle<Watched<J>, Looking>, AllocError>
    ensures { IfOk result (λ handle. handle.promise ≡ looking looks) }
{
    let promise = Looking {
        looks: u64::from(looks),
    };
    Ok(scope.spawn_with(promise, move || watch(alloc, viewer, looks))?)
}

// Starts a thread for an editor, which submits the commits of its hand.
fn start_editor<
    'r,
    's,
    E,
    J: HubName + Send + Sync,
    L: Ledger + Send + Sync,
    M: Ledger + Send + Sync,
    R: Wait + Sync,
>(
    scope: &Scope<'s, E>,
    rt: &'s R,
    hub: &'s Hub<J, L, M, Serial, &'r R>,
    editor: Editor<J, L, M>,
    hand: Hand,
) -> Result<PromisedHandle<Played<J, L, M>, Submitting>, AllocError>
    requires { editor.number ≡ hand.number }
    ensures { IfOk result (λ handle. handle.promise ≡ submitting hand.number (length hand.commits)) }
{
    let promise = Submitting {
        number: editor.number(),
        submits: hand.count() as u64,
    };
    let submits = move || -> Played<J, L, M>
        requires { editor.number ≡ hand.number }
        ensures number { result.editor.number ≡ hand.number }
        ensures counted { Counts 0 0 (length hand.commits) result.tally }
    { play(rt, hub, editor, hand) };
    Ok(scope.spawn_with(promise, submits)?)
}

// Ends the hub of these threads, and counts what each of them leaves.
fn settle<J: HubName, L: Ledger, M: Ledger, R: Threads + Wait>(
    rt: &R,
    hub: Hub<J, L, M, Serial, &R>,
    threads: Threaded<J, L, M>,
    looks: u32,
) -> Tally
    requires few { vec_len threads.viewers ≤ 64 }
    requires viewers { All (λ handle. handle.promise ≡ looking looks) threads.viewers.items }
    requires numbers { (threads.first.promise.number ≡ 0) × (threads.second.promise.number ≡ 1) }
    requires room { threads.first.promise.submits + threads.second.promise.submits < 2 ^ 64 }
    ensures { Counts (vec_len threads.viewers) (vec_len threads.viewers * looks)
        (threads.first.promise.submits + threads.second.promise.submits) result }
{
    let Threaded {
        viewers,
        first,
        second,
    } = threads;
    let first = first.join(rt);
    let second = second.join(rt);
    let hub = Settled::close(hub, (first.editor, second.editor));
    let mut all = first.tally;
    all.merge(second.tally);
    all.merge(total(rt, viewers, looks, &hub));
    all
}

// What these threads count, each of them one viewer and so many looks.
fn total<J: HubName, R: Threads>(
    rt: &R,
    watching: Vec<PromisedHandle<Watched<J>, Looking>>,
    looks: u32,
    hub: &Settled<J>,
) -> Tally
    requires each { All (λ handle. handle.promise ≡ looking looks) watching.items }
    requires few { vec_len watching ≤ 64 }
    ensures { Counts (vec_len watching) (vec_len watching * looks) 0 result }
{
    let mut watching = watching;
    let mut total = Tally::new();
    'children: while let Some(child) = watching.pop() {
        total.merge(count(rt, child, hub));
    }
    total
}

// What a viewer's thread counts.
fn count<J: HubName, R: Threads>(
    rt: &R,
    child: PromisedHandle<Watched<J>, Looking>,
    hub: &Settled<J>,
) -> Tally
    ensures { Counts 1 child.promise.looks 0 result }
{
    let Watched { viewer, mut tally } = child.join(rt);
    tally.add_viewer(&viewer, hub);
    tally
}
