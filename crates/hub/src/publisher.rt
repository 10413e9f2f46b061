//! The side of the desk in what is published.

ghost use Rattle.std.specs.Prelude.{◌≡◌, Some, length, drop, MatchBool, OnOk, OnErr};
ghost use Rattle.left_right.specs.Sides.{view};
ghost use Rattle.hubcore.specs.Lists.{StartsWith};
ghost use Rattle.hub.specs.kept.Issues.{issue_of, last_of};
ghost use Rattle.hub.specs.kept.Rules.{Follows};

use crate::history::Beginning;
use crate::issue::Issue;
use crate::name::HubName;
use crate::note::Note;
use crate::rule::{IssueWriter, Sees};
use core::mem::replace_with;
use std::alloc::AllocError;
use std::marker::Model;
use std::sync::Wait;

/// What publishes. Contracts see it as the list of commits that are published. It has a handle of its own, since its drop waits
/// for viewers that are just looking.
pub(crate) struct Publisher<J: HubName, R: Wait + Drop> {
    writer: IssueWriter,
    commits: Beginning<J>,
    rt: R,
}

impl<J: HubName, R: Wait + Drop> Model for Publisher<J, R> {
    ghost use Rattle.std.specs.Prelude.{◌≡◌, List};
    ghost use Rattle.hubcore.specs.Lists.{EntryRecord};
    ghost use Rattle.hub.specs.kept.Issues.{issue_of};

    ghost Value = { List EntryRecord };

    ghost view = { λ p. p.commits };

    ghost invariant = { λ p. p.writer.desk.shown.value ≡ issue_of J.origin J.book.history p.commits };
}

impl<J: HubName, R: Wait + Drop> Publisher<J, R> {
    pub(crate) fn new(rt: R, writer: IssueWriter, commits: Beginning<J>) -> Publisher<J, R>
        requires { writer.desk.shown.value ≡ issue_of J.origin J.book.history commits }
        ensures { result ≡ commits }
    {
        Publisher {
            writer,
            commits,
            rt,
        }
    }

    /// The commits that are published.
    pub(crate) fn commits(&self) -> &Beginning<J>
        ensures { result.now ≡ self.now }
    {
        &self.commits
    }

    /// Publishes more commits, and says whether it did: it did not where memory ran out. It waits for who still reads what was
    /// published before the last.
    pub(crate) fn publish(&mut self, next: Issue, commits: &Beginning<J>) -> bool
        requires next { next ≡ issue_of J.origin J.book.history commits.now }
        requires later { StartsWith commits.now self.old }
        ensures published { MatchBool result (self.new ≡ commits.now) (self.new ≡ self.old) }
        ensures within { StartsWith commits.now self.new }
        ensures later { StartsWith self.new self.old }
    {
        if !replace_with(&mut self.writer, (&self.rt, next), publish_next::<R>) {
            return false;
        }
        self.commits = commits.again();
        true
    }

    /// Tells what is published.
    pub(crate) fn note(&self) -> Note<J>
        ensures { result ≡ self.now }
    {
        Note::new(
            self.commits.again(),
            self.writer.published().try_clone().ok(),
        )
    }
}

impl<J: HubName, R: Wait + Drop> Drop for Publisher<J, R> {
    fn drop(self) {
        let Self {
            writer,
            commits: _commits,
            rt,
        } = self;
        drop(writer.take(&rt));
    }
}

// Publishes this issue, and says whether it did: it did not where memory ran out.
#[tactic(auto, using(crate::proofs::Beginnings::last_of_push))]
fn publish_next<R: Wait>(writer: IssueWriter, with: (&R, Issue)) -> (IssueWriter, bool)
    requires { Follows writer.desk.shown.value with.1 }
    ensures { MatchBool result.1 (result.0.desk.shown.value ≡ with.entry.1) (result.0.desk.shown.value ≡ writer.desk.shown.value) }
{
    let (rt, next) = with;
    let mut writer = writer;
    let Ok(()) = writer.append(next) else {
        return (writer, false);
    };
    let (writer, published) = publish_by(writer, rt);
    if published.is_err() {
        return (writer, false);
    }
    (writer, true)
}

/// Publishes what was appended last.
pub(crate) fn publish_by<R: Wait>(
    writer: IssueWriter,
    rt: &R,
) -> (IssueWriter, Result<(), AllocError>)
    requires { Follows writer.desk.shown.value (last_of writer.desk.shown.value (drop writer.behind writer.log.items)) }
    ensures published { OnOk result.1 ((result.0.desk.shown.value ≡ last_of writer.desk.shown.value (drop writer.behind writer.log.items))
        × (view result.0.desk.place ≡ Some result.0.desk.shown.value)) }
    ensures unchanged { OnErr result.1 ((result.0.desk.shown.value ≡ writer.desk.shown.value)
        × (view result.0.desk.place ≡ view writer.desk.place)) }
{
    writer.publish_as::<Sees, R>(rt)
}
