//! What a hub is made of.

ghost use Rattle.std.specs.Prelude.{◌≡◌, ◌≢◌, ◌⊎◌, ◌<◌, ◌≤◌, ◌↔◌, [], IfOk, IfErr, IfSome, Some, Err, All, drop, length};
ghost use Rattle.std.specs.Arc.{arc_value};
ghost use Rattle.left_right.specs.Sides.{view};
ghost use Rattle.hub.specs.kept.Issues.{issue_of};

use crate::fault::HubFault;
use crate::history::{NewHistory, Reached};
use crate::issue::Issue;
use crate::publisher::publish_by;
use crate::rule::{IssueReader, IssueWriter, Telling};
use bench::{Bench, Snapshot};
use gatestep::Stepper;
use std::alloc::{AllocError, Global};
use std::marker::Model;
use std::sync::ledger::Blank;
use std::sync::{Arc, Wait};

/// The most viewers of a hub.
pub const MAX_VIEWERS: u32 = 64;

/// What a hub is made of, without names yet. Its snapshot is published already, and each viewer has its place. It has to be opened
/// as a hub: it can't be dropped, since it has no handle to wait with.
pub struct Parts<S: Stepper + Drop> {
    pub(crate) alloc: Global,
    pub(crate) bench: Bench<S>,
    pub(crate) origin: Arc<Snapshot>,
    pub(crate) history: NewHistory,
    pub(crate) writer: IssueWriter,
    pub(crate) readers: Vec<IssueReader>,
    pub(crate) first: Blank,
    pub(crate) second: Blank,
    pub(crate) first_told: Blank,
    pub(crate) second_told: Blank,
}

impl<S: Stepper + Drop> Model for Parts<S> {
    ghost use Rattle.std.specs.Prelude.{◌≡◌, ◌<◌, [], Some, All, length};
    ghost use Rattle.std.specs.Arc.{arc_value};
    ghost use Rattle.left_right.specs.Sides.{view as known_by};
    ghost use Rattle.hub.specs.kept.Issues.{issue_of};
    ghost use Rattle.hub.specs.kept.Desks.{PartsRecord};

    ghost Value = { PartsRecord };

    ghost view = { λ p. record {
      origin = arc_value p.origin;
      asked = p.bench.asked;
      losses = p.bench.losses;
      book = record { history = p.history.reached.book; first_told = p.first_told.name; second_told = p.second_told.name };
      first_name = p.first.name;
      first_parts = p.first.parts;
      second_name = p.second.name;
      second_parts = p.second.parts;
      viewers = length p.readers.items;
    } };

    ghost invariant = { λ p. (p.bench.snapshot ≡ arc_value p.origin) × (0 < p.first.parts) × (0 < p.second.parts)
        × (p.first_told.parts ≡ 1) × (p.second_told.parts ≡ 1)
        × (p.writer.desk.shown.value ≡ issue_of (arc_value p.origin) p.history.reached.book [])
        × All (λ r. known_by r.place ≡ Some (issue_of (arc_value p.origin) p.history.reached.book [])) p.readers.items };
}

impl<S: Stepper + Drop> Parts<S> {
    /// The parts of a hub over this bench with so many viewers, 1 to 64. Where it fails the bench is dropped.
    pub fn new<R: Wait>(
        rt: &R,
        alloc: Global,
        bench: Bench<S>,
        viewers: u32,
    ) -> Result<Parts<S>, HubFault>
        ensures parts { IfOk result (λ parts. (parts.origin ≡ bench.snapshot) × (parts.viewers ≡ viewers)) }
        ensures stepper { IfOk result (λ parts. (parts.asked ≡ bench.asked) × (parts.losses ≡ bench.losses)) }
        ensures ledgers { IfOk result (λ parts. (parts.first_parts ≡ 1) × (parts.second_parts ≡ 1)) }
        ensures bad_count { (result ≡ Err HubFault.BadCount) ↔ ((viewers ≡ 0) ⊎ (64 < viewers)) }
    {
        if viewers == 0 || viewers > MAX_VIEWERS {
            return Err(HubFault::BadCount);
        }
        let Ok(origin) = Arc::try_clone(bench.snapshot()) else {
            return Err(HubFault::OutOfMemory);
        };
        let history = NewHistory::new();
        let (writer, readers) = sides(rt, alloc, &origin, &history.reached, viewers)?;
        Ok(Parts {
            alloc,
            bench,
            origin,
            history,
            writer,
            readers,
            first: Blank::new(1),
            second: Blank::new(1),
            first_told: Blank::new(1),
            second_told: Blank::new(1),
        })
    }
}

// The writer and the readers of a hub in which this snapshot is published.
fn sides<R: Wait>(
    rt: &R,
    alloc: Global,
    origin: &Arc<Snapshot>,
    reached: &Reached,
    viewers: u32,
) -> Result<(IssueWriter, Vec<IssueReader>), HubFault>
    requires reached { reached.now.log ≡ [] }
    requires viewers { (0 < viewers) × (viewers < 65) }
    ensures writer { IfOk result (λ sides. sides.0.desk.shown.value ≡ issue_of (arc_value origin.now) reached.now.book []) }
    ensures readers { IfOk result (λ sides. All (λ r. view r.place ≡ Some (issue_of (arc_value origin.now) reached.now.book [])) sides.1.items) }
    ensures count { IfOk result (λ sides. length sides.1.items ≡ viewers) }
    ensures fault { IfErr result (λ fault. fault ≢ HubFault.BadCount) }
{
    let Some(mut writer) = writer_of(rt, alloc, origin, reached, viewers) else {
        return Err(HubFault::OutOfMemory);
    };
    match readers_of(alloc, &mut writer, viewers) {
        Ok(readers) => Ok((writer, readers)),
        Err(fault) => {
            drop(writer.take(rt));
            Err(fault)
        }
    }
}

// A writer that has published this snapshot, or nothing where memory ran out.
fn writer_of<R: Wait>(
    rt: &R,
    alloc: Global,
    origin: &Arc<Snapshot>,
    reached: &Reached,
    viewers: u32,
) -> Option<IssueWriter>
    requires reached { reached.now.log ≡ [] }
    requires viewers { (0 < viewers) × (viewers < 65) }
    ensures shown { IfSome result (λ w. w.desk.shown.value ≡ issue_of (arc_value origin.now) reached.now.book []) }
    ensures known { IfSome result (λ w. view w.desk.place ≡ Some (issue_of (arc_value origin.now) reached.now.book [])) }
{
    let Ok((first, second)) = twice(origin, reached) else {
        return None;
    };
    let Ok(writer) = IssueWriter::new(alloc, first, second, viewers as usize) else {
        return None;
    };
    let writer = published_at_once(rt, writer)?;
    Some(writer)
}

// The writer, which has published what it shows, or nothing where memory ran out.
fn published_at_once<R: Wait>(rt: &R, writer: IssueWriter) -> Option<IssueWriter>
    requires { drop writer.behind writer.log.items ≡ [] }
    ensures shown { IfSome result (λ w. w.desk.shown.value ≡ writer.desk.shown.value) }
    ensures known { IfSome result (λ w. view w.desk.place ≡ Some writer.desk.shown.value) }
{
    match publish_by(writer, rt) {
        (writer, Ok(())) => Some(writer),
        (writer, Err(_)) => {
            drop(writer.take(rt));
            None
        }
    }
}

// This snapshot without commits, two times.
fn twice(origin: &Arc<Snapshot>, reached: &Reached) -> Result<(Issue, Issue), AllocError>
    requires { reached.now.log ≡ [] }
    ensures first { IfOk result (λ issues. issues.0 ≡ issue_of (arc_value origin.now) reached.now.book []) }
    ensures second { IfOk result (λ issues. issues.1 ≡ issue_of (arc_value origin.now) reached.now.book []) }
{
    let first = Issue::of(origin, origin, 0, reached)?;
    let second = first.try_clone()?;
    Ok((first, second))
}

fn readers_of(
    alloc: Global,
    writer: &mut IssueWriter,
    viewers: u32,
) -> Result<Vec<IssueReader>, HubFault>
    ensures kept { (writer.new.desk.shown ≡ writer.old.desk.shown) × (view writer.new.desk.place ≡ view writer.old.desk.place) }
    ensures readers { IfOk result (λ readers. All (λ r. view r.place ≡ view writer.old.desk.place) readers.items × (length readers.items ≡ viewers)) }
    ensures fault { IfErr result (λ fault. fault ≢ HubFault.BadCount) }
{
    let mut readers = Vec::new(alloc);
    for _number in 0..viewers {
        let Ok(reader) = reader_of(writer) else {
            return Err(HubFault::NoPlace);
        };
        if readers.push(reader).is_err() {
            return Err(HubFault::OutOfMemory);
        }
    }
    Ok(readers)
}

// A reader that knows what the writer does.
fn reader_of(writer: &mut IssueWriter) -> Result<IssueReader, AllocError>
    ensures kept { (writer.new.desk.shown ≡ writer.old.desk.shown) × (view writer.new.desk.place ≡ view writer.old.desk.place) }
    ensures reader { IfOk result (λ reader. view reader.place ≡ view writer.old.desk.place) }
{
    let mut reader = writer.factory().reader()?;
    reader.learn::<Telling>(writer.tell::<Telling>());
    Ok(reader)
}
