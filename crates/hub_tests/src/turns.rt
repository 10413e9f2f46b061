//! Two editors in turn: what one has committed is there for the other one's next commit.

ghost use Rattle.std.specs.Prelude.{◌≡◌};

use super::buffers::{bench, input, stim, without};
use crate::compare::equal;
use bench::CommitFault;
use edits::{Edit, EditFault};
use fourstate::Value;
use gatestep::Serial;
use hub::{Editor, Hub, HubName, Log, Parts};
use std::alloc::Global;
use std::marker::Brand;
use std::process::Abort;
use std::sync::Wait;
use std::sync::ledger::Ledger;

/// A commit of one edit has this reply, and the editor then so many commits.
fn submit<J: HubName, L: Ledger, M: Ledger, R: Wait + Abort>(
    rt: &R,
    hub: &Hub<J, L, M, Serial, &R>,
    editor: &mut Editor<J, L, M>,
    edit: Edit,
    wanted: Result<u64, CommitFault>,
    count: u64,
)
    ensures { editor.new.number ≡ editor.old.number }
{
    let edits = [edit];
    let receipt = hub.submit(rt, editor, &edits);
    drop(edits);
    equal(rt, "reply", receipt.reply, wanted);
    equal(rt, "shown", receipt.shown, true);
    equal(rt, "count", editor.count(), count);
    drop(receipt);
}

/// The first editor adds an input. The other one's first commit needs it, and its next one takes it away; so that of the first
/// editor is refused.
fn take_turns<J: HubName, L: Ledger, M: Ledger, R: Wait + Abort>(
    rt: &R,
    alloc: Global,
    hub: &Hub<J, L, M, Serial, &R>,
    one: &mut Editor<J, L, M>,
    other: &mut Editor<J, L, M>,
)
    ensures one { one.new.number ≡ one.old.number }
    ensures other { other.new.number ≡ other.old.number }
{
    let unknown = CommitFault::Edit(0, EditFault::UnknownNet);
    submit(rt, hub, one, input(rt, alloc, "n"), Ok(1), 1);
    let point = stim(rt, alloc, "n", 5, Value::One);
    submit(rt, hub, other, point, Ok(2), 1);
    submit(rt, hub, other, without(rt, alloc, "n"), Ok(3), 2);
    let point = stim(rt, alloc, "n", 6, Value::One);
    submit(rt, hub, one, point, Err(unknown), 1);
}

/// The editors of the commits that were accepted, in order.
fn check_log<J: HubName>(rt: &impl Abort, log: Log<J>) {
    assert!(rt; log.shown);
    equal(rt, "length", log.commits.len(), 3);
    for (entry, editor) in log.commits.iter().zip([0, 1, 1]) {
        equal(rt, "editor", entry.editor, editor);
    }
    drop(log);
}

fn row<J: HubName, L: Ledger, M: Ledger, R: Wait + Abort>(
    rt: &R,
    alloc: Global,
    parts: Parts<Serial>,
)
    requires names { (parts.origin ≡ J.origin) × (parts.book ≡ J.book) }
    requires first { (parts.first_name ≡ L.name) × (parts.first_parts ≡ L.parts) }
    requires second { (parts.second_name ≡ M.name) × (parts.second_parts ≡ M.parts) }
{
    let opened = Hub::<J, L, M, Serial, &R>::open(rt, parts);
    let (hub, (mut one, mut other), viewers) = opened.expect(rt, "a hub");
    drop(viewers);
    take_turns(rt, alloc, &hub, &mut one, &mut other);
    check_log(rt, hub.close((one, other)));
}

#[test]
fn one_editor_needs_what_the_other_one_added(rt: HostRuntime) {
    let bench = bench(&rt, rt.alloc());
    let parts = Parts::new(&rt, rt.alloc(), bench, 1).expect(&rt, "parts");
    row::<Brand, Brand, Brand, _>(&rt, rt.alloc(), parts);
}
