//! Two editors in turn: a receipt tells what comes in the log behind what the editor's last one told, and no more.

ghost use Rattle.std.specs.Prelude.{◌≡◌};

use super::buffers::bench;
use super::commits::{commit, refused};
use super::looks::look;
use crate::compare::equal;
use gatestep::Serial;
use hub::{Editor, Hub, HubName, Log, Parts, Viewer};
use std::alloc::Global;
use std::marker::Brand;
use std::process::Abort;
use std::sync::Wait;
use std::sync::ledger::Ledger;

/// Whose commits these are, in order. An editor goes on after none, one, two or three commits of the other one.
const TURNS: [u32; 12] = [0, 1, 1, 0, 0, 1, 0, 0, 0, 1, 1, 0];

/// The commits of the log of which one receipt told: those from one place up to another one.
#[derive(Clone, Copy)]
struct News {
    editor: u32,
    from: u64,
    to: u64,
}

/// A commit is accepted and shown, and the receipt tells the viewer of it.
fn submit<J: HubName, L: Ledger, M: Ledger, R: Wait + Abort>(
    rt: &R,
    alloc: Global,
    hub: &Hub<J, L, M, Serial, &R>,
    editor: &mut Editor<J, L, M>,
    viewer: &mut Viewer<J>,
) -> News
    ensures { editor.new.number ≡ editor.old.number }
{
    let from = editor.told_count();
    let place = editor.count();
    let receipt = commit(rt, alloc, hub, editor, place);
    equal(rt, "accepted", receipt.reply.is_ok(), true);
    equal(rt, "shown", receipt.shown, true);
    viewer.learn(receipt);
    News {
        editor: editor.number(),
        from,
        to: editor.told_count(),
    }
}

/// A refused commit tells of what the other editor did since, and that is not told again.
fn submit_refused<J: HubName, L: Ledger, M: Ledger, R: Wait + Abort>(
    rt: &R,
    alloc: Global,
    hub: &Hub<J, L, M, Serial, &R>,
    editor: &mut Editor<J, L, M>,
    length: u64,
)
    ensures { editor.new.number ≡ editor.old.number }
{
    refused(rt, alloc, hub, editor);
    equal(rt, "commits told", editor.told_count(), length);
}

/// A viewer that was told last sees as many commits as there are.
fn check_viewer<J: HubName>(rt: &impl Abort, viewer: &mut Viewer<J>, length: u64) {
    let seen = look(rt, viewer);
    equal(rt, "version", seen.version(), length);
    drop(seen);
}

/// Each commit in turn, and what its receipt told.
fn take_turns<J: HubName, L: Ledger, M: Ledger, R: Wait + Abort>(
    rt: &R,
    alloc: Global,
    hub: &Hub<J, L, M, Serial, &R>,
    editors: &mut (Editor<J, L, M>, Editor<J, L, M>),
    viewers: &mut (Viewer<J>, Viewer<J>),
) -> Vec<News>
    ensures first { editors.new.0.number ≡ editors.old.0.number }
    ensures second { editors.new.1.number ≡ editors.old.1.number }
{
    let mut told = Vec::new(alloc);
    let mut length = 0u64;
    'turns: for turn in TURNS {
        length = length.wrapping_add(1);
        let news = if turn == 0 {
            let news = submit(rt, alloc, hub, &mut editors.0, &mut viewers.0);
            check_viewer(rt, &mut viewers.0, length);
            news
        } else {
            let news = submit(rt, alloc, hub, &mut editors.1, &mut viewers.1);
            check_viewer(rt, &mut viewers.1, length);
            news
        };
        equal(rt, "commits told", news.to, length);
        told.push(news).expect(rt, "room");
    }
    submit_refused(rt, alloc, hub, &mut editors.1, length);
    told
}

/// Of the commits that a receipt told of the last one is the editor's own, and the others are those that the other editor made since.
fn check_news<J: HubName>(rt: &impl Abort, log: &Log<J>, news: News) {
    equal(rt, "some news", news.from < news.to, true);
    for place in news.from..news.to {
        let Some(entry) = log.commits.get(place as usize) else {
            equal(rt, "a commit of the log", place, 0);
            return;
        };
        let is_last = place.wrapping_add(1) == news.to;
        equal(rt, "its own", entry.editor == news.editor, is_last);
    }
}

/// What the receipts told is the log, and it begins with what each viewer was told.
fn check_log<J: HubName>(
    rt: &impl Abort,
    log: &Log<J>,
    told: &[News],
    viewers: &(Viewer<J>, Viewer<J>),
) {
    assert!(rt; log.shown);
    equal(rt, "length", log.commits.len(), TURNS.len());
    for news in told {
        check_news(rt, log, *news);
    }
    equal(rt, "all of the first viewer", log.reaches(&viewers.0), true);
    equal(
        rt,
        "all of the second viewer",
        log.reaches(&viewers.1),
        true,
    );
}

fn row<J: HubName, L: Ledger, M: Ledger, R: Wait + Abort>(
    rt: &R,
    alloc: Global,
    parts: Parts<Serial>,
)
    requires names { (parts.origin ≡ J.origin) × (parts.book ≡ J.book) }
    requires first { (parts.first_name ≡ L.name) × (parts.first_parts ≡ L.parts) }
    requires second { (parts.second_name ≡ M.name) × (parts.second_parts ≡ M.parts) }
{
    let opened = Hub::<J, L, M, Serial, &R>::open(rt, parts);
    let (hub, mut editors, mut viewers) = opened.expect(rt, "a hub");
    let second = viewers.pop().expect(rt, "a viewer");
    let first = viewers.pop().expect(rt, "a viewer");
    drop(viewers);
    let mut viewers = (first, second);
    let told = take_turns(rt, alloc, &hub, &mut editors, &mut viewers);
    let log = hub.close(editors);
    check_log(rt, &log, told.as_slice(), &viewers);
    drop(told);
    drop(log);
    drop(viewers);
}

#[test]
fn receipts_go_on_where_the_last_ones_ended(rt: HostRuntime) {
    let bench = bench(&rt, rt.alloc());
    let parts = Parts::new(&rt, rt.alloc(), bench, 2).expect(&rt, "parts");
    row::<Brand, Brand, Brand, _>(&rt, rt.alloc(), parts);
}
