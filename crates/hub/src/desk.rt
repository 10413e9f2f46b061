//! What lies under the lock of a hub.

ghost use Rattle.std.specs.Prelude.{◌≡◌, ◌+◌, ◌↔◌, [], IsTrue, IfErr, IfOk, Some, All, false, length, if◌then◌else◌};
ghost use Rattle.std.specs.Arc.{arc_value};
ghost use Rattle.left_right.specs.Sides.{view};
ghost use Rattle.bench.specs.Refusals.{loses_a_worker};
ghost use Rattle.hubcore.specs.Lists.{StartsWith};
ghost use Rattle.hub.specs.Commits.{AskedByCommit, IsReply, count_of, logged, snapshot_after};
ghost use Rattle.hub.specs.Desks.{GoesOn, answered, editor_of};
ghost use Rattle.hub.specs.kept.Desks.{desk_of};
ghost use Rattle.hub.specs.kept.Issues.{issue_of};

use crate::editor::Editor;
use crate::entry::{Entry, copies_of};
use crate::fault::HubFault;
use crate::history::{Beginning, History};
use crate::issue::Issue;
use crate::log::Log;
use crate::name::HubName;
use crate::parts::Parts;
use crate::publisher::Publisher;
use crate::receipt::Receipt;
use crate::rule::IssueReader;
use crate::told::{ToldBooks, books_of};
use crate::viewer::Viewer;
use bench::{Bench, CommitFault, Snapshot};
use edits::Edit;
use gatestep::Stepper;
use std::alloc::{AllocError, Global};
use std::marker::Model;
use std::sync::ledger::{Book, Ledger};
use std::sync::{Arc, Wait};

/// A bench, the log of its accepted commits, and what publishes its snapshots, on one thread. Contracts see the log, what is
/// published of it and, of the stepper, what it was asked and how often it lost a worker. The type keeps that the bench has the
/// snapshot of the log, that what is published is a beginning of the log, that the book of each editor's ledger has as many
/// commits as bear its number, and that no editor was told of more than is published.
#[derive(Drop)]
pub struct Desk<J: HubName, L: Ledger, M: Ledger, S: Stepper + Drop, R: Wait + Drop> {
    alloc: Global,
    bench: Bench<S>,
    origin: Arc<Snapshot>,
    log: Vec<Entry>,
    history: History<J>,
    publisher: Publisher<J, R>,
    first: Book<L>,
    second: Book<M>,
    told: ToldBooks<J>,
}

impl<J: HubName, L: Ledger, M: Ledger, S: Stepper + Drop, R: Wait + Drop> Model
    for Desk<J, L, M, S, R> {
    ghost use Rattle.std.specs.Prelude.{◌≡◌};
    ghost use Rattle.std.specs.Arc.{arc_value};
    ghost use Rattle.hubcore.specs.Lists.{StartsWith};
    ghost use Rattle.hub.specs.Desks.{DeskRecord};
    ghost use Rattle.hub.specs.kept.Desks.{AreToldWithin, IsKept, desk_of};

    ghost Value = { DeskRecord };

    ghost view = { λ d. desk_of d.log.items d.publisher d.bench.asked d.bench.losses };

    ghost invariant = { λ d. IsKept J.origin d.bench.snapshot d.log.items d.publisher d.first.total d.second.total
        × (arc_value d.origin ≡ J.origin) × StartsWith d.log.items d.history × StartsWith d.history d.publisher
        × AreToldWithin d.publisher d.told.first.total d.told.second.total };
}

impl<J: HubName, L: Ledger, M: Ledger, S: Stepper + Drop, R: Wait + Drop> Desk<J, L, M, S, R> {
    /// A desk without commits, its two editors, and its viewers, which saw nothing.
    pub fn open(
        rt: R,
        parts: Parts<S>,
    ) -> Result<
        (
            Desk<J, L, M, S, R>,
            (Editor<J, L, M>, Editor<J, L, M>),
            Vec<Viewer<J>>,
        ),
        HubFault,
    >
        requires names { (parts.origin ≡ J.origin) × (parts.book ≡ J.book) }
        requires first { (parts.first_name ≡ L.name) × (parts.first_parts ≡ L.parts) }
        requires second { (parts.second_name ≡ M.name) × (parts.second_parts ≡ M.parts) }
        ensures desk { IfOk result (λ opened. opened.0 ≡ desk_of [] [] parts.asked parts.losses) }
        ensures editors { IfOk result (λ opened. (opened.1.0 ≡ editor_of 0 0 []) × (opened.1.1 ≡ editor_of 1 0 [])) }
        ensures viewers { IfOk result (λ opened. All (λ viewer. viewer ≡ []) opened.2.items × (length opened.2.items ≡ parts.viewers)) }
        ensures fault { IfErr result (λ fault. fault ≡ HubFault.OutOfMemory) }
    {
        let Parts {
            alloc,
            bench,
            origin,
            history,
            writer,
            readers,
            first,
            second,
            first_told,
            second_told,
        } = parts;
        let history = history.named::<J>();
        let publisher = Publisher::new(rt, writer, history.all().again());
        let Ok(viewers) = viewers_of::<J>(alloc, readers, history.all()) else {
            return Err(HubFault::OutOfMemory);
        };
        let (first, first_share) = first.open::<L>();
        let (second, second_share) = second.open::<M>();
        let (told, shares) = books_of::<J>(first_told, second_told);
        let editors = Editor::both(first_share, second_share, shares, history.all());
        let log = Vec::new(alloc);
        let desk = Desk {
            alloc,
            bench,
            origin,
            log,
            history,
            publisher,
            first,
            second,
            told,
        };
        Ok((desk, editors, viewers))
    }

    /// Commits the edits for an editor, and then publishes all accepted commits that are not published yet, also where this one was
    /// refused. It waits for viewers that are just looking.
    pub fn submit(&mut self, editor: &mut Editor<J, L, M>, edits: &[Edit]) -> Receipt<J>
        ensures own { count_of editor.old.number self.old.log ≡ editor.old.count }
        ensures reply { IsReply (snapshot_after J.origin self.old.log) edits.now result.reply }
        ensures log { self.new.log ≡ logged self.old.log editor.old.number edits.now result.reply }
        ensures editor { editor.new ≡ answered editor.old result.reply result.told }
        ensures number { editor.new.number ≡ editor.old.number }
        ensures told { result.told ≡ self.new.shown }
        ensures begins { StartsWith self.new.log self.new.shown }
        ensures shown { IsTrue result.shown ↔ (self.new.shown ≡ self.new.log) }
        ensures unchanged { result.shown ≡ false → self.new.shown ≡ self.old.shown }

        // What its last receipt told.
        ensures goes_on { GoesOn self.old.log editor.old.told result.told }

        // What the stepper was asked.
        ensures asked { AskedByCommit (snapshot_after J.origin self.old.log) edits.now result.reply self.old.asked self.new.asked }
        ensures lost { self.new.losses ≡ self.old.losses + (if loses_a_worker result.reply then 1 else 0) }
    {
        self.recall(editor);
        let reply = self.commit(editor, edits);
        let shown = self.show();
        let note = self.publisher.note();
        self.tell(editor);
        Receipt { reply, shown, note }
    }

    // Commits the edits for an editor.
    #[tactic(auto, using(crate::proofs::Asking::asked_nothing))]
    fn commit(&mut self, editor: &mut Editor<J, L, M>, edits: &[Edit]) -> Result<u64, CommitFault>
        ensures own { count_of editor.old.number self.old.log ≡ editor.old.count }
        ensures reply { IsReply (snapshot_after J.origin self.old.log) edits.now result }
        ensures log { self.new.log ≡ logged self.old.log editor.old.number edits.now result }
        ensures editor { editor.new ≡ answered editor.old result editor.old.told }
        ensures number { editor.new.number ≡ editor.old.number }
        ensures shown { self.new.shown ≡ self.old.shown }
        ensures asked { AskedByCommit (snapshot_after J.origin self.old.log) edits.now result self.old.asked self.new.asked }
        ensures lost { self.new.losses ≡ self.old.losses + (if loses_a_worker result then 1 else 0) }
    {
        editor.audit(&mut self.first, &mut self.second);
        let Ok(copies) = copies_of(self.alloc, edits) else {
            return Err(CommitFault::OutOfMemory);
        };
        if self.log.reserve(1).is_err() {
            return Err(CommitFault::OutOfMemory);
        }
        match self.bench.commit(edits) {
            Ok(version) => {
                editor.add(&mut self.first, &mut self.second);
                let entry = Entry {
                    editor: editor.number(),
                    edits: copies,
                };
                self.history.follow(&self.log, &entry);
                self.log.push_reserved(entry);
                Ok(version)
            }
            Err(fault) => Err(fault),
        }
    }

    // What the editor's last receipt told is published.
    fn recall(&mut self, editor: &mut Editor<J, L, M>)
        ensures same { (self.new ≡ self.old) × (editor.new ≡ editor.old) }
        ensures begins { StartsWith self.old.shown editor.old.told }
        ensures log { StartsWith self.old.log editor.old.told }
    {
        editor.audit_told(&mut self.told);
        self.publisher.commits().begins_with(editor.last_told());
    }

    // The editor is told what is published.
    fn tell(&mut self, editor: &mut Editor<J, L, M>)
        ensures same { self.new ≡ self.old }
        ensures editor { editor.new ≡ editor_of editor.old.number editor.old.count self.old.shown }
        ensures begins { StartsWith self.old.shown editor.old.told }
    {
        editor.learn(&mut self.told, self.publisher.commits());
    }

    // Publishes all accepted commits that are not published yet, and says whether all are published then. They are not where memory
    // ran out.
    #[tactic(auto, using(crate::proofs::Beginnings::starts_same))]
    fn show(&mut self) -> bool
        ensures kept { self.new ≡ desk_of self.old.log self.new.shown self.old.asked self.old.losses }
        ensures shown { IsTrue result ↔ (self.new.shown ≡ self.new.log) }
        ensures unchanged { result ≡ false → self.new.shown ≡ self.old.shown }
        ensures grows { StartsWith self.new.shown self.old.shown }
    {
        if self.publisher.commits().is_all(&self.log) {
            return true;
        }
        let all = self.history.all();
        if !all.is_all(&self.log) {
            return false;
        }
        let Ok(issue) = Issue::of(
            self.bench.snapshot(),
            &self.origin,
            all.len(),
            all.reached(),
        ) else {
            return false;
        };
        self.publisher.publish(issue, all)
    }

    /// Puts another stepper in the place of the bench's, which it gives back. It takes no memory.
    pub fn restep(&mut self, stepper: S) -> S
        ensures kept { (self.new.log ≡ self.old.log) × (self.new.shown ≡ self.old.shown) }
        ensures asked { self.new.asked ≡ S.asked stepper }
        ensures losses { self.new.losses ≡ S.losses stepper }
        ensures former { (S.asked result ≡ self.old.asked) × (S.losses result ≡ self.old.losses) }
    {
        self.bench.restep(stepper)
    }

    /// Publishes all accepted commits that are not published yet, and ends. It waits for viewers that are just looking; from then on
    /// a look is refused as closed.
    pub fn close(self, editors: (Editor<J, L, M>, Editor<J, L, M>)) -> Log<J>
        requires { (editors.0.number ≡ 0) × (editors.1.number ≡ 1) }
        ensures log { result.commits ≡ self.log }
        ensures first { count_of 0 result.commits ≡ editors.0.count }
        ensures second { count_of 1 result.commits ≡ editors.1.count }
        ensures all { length result.commits ≡ editors.0.count + editors.1.count }
        ensures told { StartsWith result.commits result.told }
        ensures shown { IsTrue result.shown ↔ (result.told ≡ result.commits) }
        ensures first_told { StartsWith result.told editors.0.told }
        ensures second_told { StartsWith result.told editors.1.told }
    {
        let (mut first, mut second) = editors;
        let mut desk = self;
        let shown = desk.show();
        desk.recall(&mut first);
        desk.recall(&mut second);
        let Desk {
            alloc: _,
            bench: _bench,
            origin: _origin,
            log,
            history: _history,
            publisher,
            first: mut first_book,
            second: mut second_book,
            told: _told,
        } = desk;
        first.audit(&mut first_book, &mut second_book);
        second.audit(&mut first_book, &mut second_book);
        let told = publisher.commits().again();
        drop(publisher);
        Log {
            commits: log,
            shown,
            told,
        }
    }
}

// The viewers over these readers, which know that nothing was committed yet.
fn viewers_of<J: HubName>(
    alloc: Global,
    readers: Vec<IssueReader>,
    none: &Beginning<J>,
) -> Result<Vec<Viewer<J>>, AllocError>
    requires readers { All (λ r. view r.place ≡ Some (issue_of J.origin J.book.history [])) readers.items }
    requires none { none.now ≡ [] }
    ensures { IfOk result (λ viewers. All (λ viewer. viewer ≡ []) viewers.items × (length viewers.items ≡ length readers.items)) }
{
    let mut readers = readers;
    let mut viewers = Vec::new(alloc);
    while let Some(reader) = readers.pop() {
        if viewers.push(Viewer::new(reader, none.again())).is_err() {
            return Err(AllocError);
        }
    }
    Ok(viewers)
}
