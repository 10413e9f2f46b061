//! What editors commit in a race. Each commit of the first editor gives the buffer `g` a rise that is one more than before, and
//! `a` another value at 0, 1 and 0 in turn; each of the second one does so of `h` and `b`. So the delays tell how many commits
//! of each editor a snapshot has, and the waves follow from them.

ghost use Rattle.std.specs.Prelude.{◌≡◌};

use super::buffers::{DELAY, input, rise, stim};
use crate::compare::equal;
use bench::CommitFault;
use crossbeam_channel::Sender;
use edits::{Edit, EditFault};
use fourstate::{DelayTimes, Value};
use gatestep::Serial;
use hub::{Editor, Hub, HubName, Receipt};
use std::alloc::Global;
use std::process::Abort;
use std::sync::Wait;
use std::sync::ledger::Ledger;

/// How much is done in a race.
#[derive(Clone, Copy)]
pub struct Plan {
    /// How many commits each editor makes.
    pub commits: u64,
    /// How often each viewer looks.
    pub looks: u64,
    /// Whether it waits for a receipt before each look.
    pub waits: bool,
}

/// The buffers that the two editors change, by their numbers.
pub const BUFFERS: [&str; 2] = ["g", "h"];

const INPUTS: [&str; 2] = ["a", "b"];

/// The rise of an editor's buffer after so many of its commits.
pub fn rise_after(count: u64) -> u64 {
    count.wrapping_add(DELAY)
}

/// The value of its input at 0 then, if there are any.
pub fn value_after(count: u64) -> Value {
    if count % 2 == 0 {
        Value::Zero
    } else {
        Value::One
    }
}

/// The commit of an editor at a place.
pub fn commit<J: HubName, L: Ledger, M: Ledger, R: Wait + Abort>(
    rt: &R,
    alloc: Global,
    hub: &Hub<J, L, M, Serial, &R>,
    editor: &mut Editor<J, L, M>,
    place: u64,
) -> Receipt<J>
    ensures { editor.new.number ≡ editor.old.number }
{
    let number = editor.number() as usize;
    let count = place.wrapping_add(1);
    let edits = [
        rise(rt, alloc, BUFFERS[number], rise_after(count)),
        stim(rt, alloc, INPUTS[number], 0, value_after(count)),
    ];
    let receipt = hub.submit(rt, editor, &edits);
    drop(edits);
    receipt
}

// Whether an edit gives the editor's buffer its rise after so many commits.
fn is_rise(edit: &Edit, editor: usize, count: u64) -> bool {
    match edit {
        Edit::SetDelay { name, delays } => {
            editor < 2
                && name.as_str() == BUFFERS[editor]
                && *delays == DelayTimes::new(rise_after(count), DELAY)
        }
        _ => false,
    }
}

// Whether an edit gives the editor's input its value after so many commits.
fn is_point(edit: &Edit, editor: usize, count: u64) -> bool {
    match edit {
        Edit::Stim { net, time, value } => {
            editor < 2
                && net.as_str() == INPUTS[editor]
                && *time == 0
                && *value == value_after(count)
        }
        _ => false,
    }
}

/// Whether these are the edits of an editor's commit that has so many of it, itself with them.
pub fn are_edits(edits: &[Edit], editor: usize, count: u64) -> bool {
    edits.len() == 2 && is_rise(&edits[0], editor, count) && is_point(&edits[1], editor, count)
}

/// A commit whose second edit is refused changes nothing.
pub fn refused<J: HubName, L: Ledger, M: Ledger, R: Wait + Abort>(
    rt: &R,
    alloc: Global,
    hub: &Hub<J, L, M, Serial, &R>,
    editor: &mut Editor<J, L, M>,
)
    ensures { editor.new.number ≡ editor.old.number }
{
    let count = editor.count();
    let edits = [input(rt, alloc, "r"), input(rt, alloc, "a")];
    let receipt = hub.submit(rt, editor, &edits);
    drop(edits);
    let fault = CommitFault::Edit(1, EditFault::DuplicateName);
    equal(rt, "reply", receipt.reply, Err(fault));
    equal(rt, "shown", receipt.shown, true);
    equal(rt, "count", editor.count(), count);
    drop(receipt);
}

// The commit at a place is accepted and shown, and viewers are sent its receipt. A refused one follows.
fn step<J: HubName, L: Ledger, M: Ledger, R: Wait + Abort>(
    rt: &R,
    alloc: Global,
    hub: &Hub<J, L, M, Serial, &R>,
    editor: &mut Editor<J, L, M>,
    place: u64,
    viewers: &Sender<Receipt<J>>,
)
    ensures { editor.new.number ≡ editor.old.number }
{
    let receipt = commit(rt, alloc, hub, editor, place);
    equal(rt, "accepted", receipt.reply.is_ok(), true);
    equal(rt, "shown", receipt.shown, true);
    equal(rt, "count", editor.count(), place.wrapping_add(1));
    let sent = viewers.send(rt, receipt);
    equal(rt, "sent", sent.is_ok(), true);
    refused(rt, alloc, hub, editor);
}

/// An editor makes so many commits. It is given back.
pub fn edit<J: HubName, L: Ledger, M: Ledger, R: Wait + Abort>(
    rt: &R,
    alloc: Global,
    hub: &Hub<J, L, M, Serial, &R>,
    editor: Editor<J, L, M>,
    viewers: &Sender<Receipt<J>>,
    commits: u64,
) -> Editor<J, L, M>
    ensures { result.number ≡ editor.number }
{
    let mut editor = editor;
    'places: for place in 0..commits {
        step(rt, alloc, hub, &mut editor, place, viewers);
    }
    editor
}
