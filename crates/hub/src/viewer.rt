//! Who looks at what is published.

ghost use Rattle.std.specs.Prelude.{◌≡◌, IfOk, IfSome, Ok, Err, Some};
ghost use Rattle.std.specs.Arc.{arc_value};
ghost use Rattle.left_right.specs.Sides.{view};
ghost use Rattle.hubcore.specs.Lists.{StartsWith, longer};
ghost use Rattle.hub.specs.Commits.{snapshot_after};
ghost use Rattle.hub.specs.kept.Issues.{issue_of};
ghost use Rattle.hub.specs.kept.Rules.{IsOf};

use crate::fault::LookFault;
use crate::history::Beginning;
use crate::name::HubName;
use crate::note::Note;
use crate::receipt::Receipt;
use crate::rule::{IssueReader, Sees};
use bench::Snapshot;
use core::mem::replace_with;
use std::alloc::AllocError;
use std::marker::Model;
use std::sync::Arc;

/// A viewer of a hub. Contracts see it as the list of commits that it saw or was told of.
#[derive(Drop)]
pub struct Viewer<J: HubName> {
    reader: IssueReader,
    known: Note<J>,
}

impl<J: HubName> Model for Viewer<J> {
    ghost use Rattle.std.specs.Prelude.{List};
    ghost use Rattle.left_right.specs.Sides.{view as known_by};
    ghost use Rattle.hubcore.specs.Lists.{EntryRecord};
    ghost use Rattle.hub.specs.kept.Rules.{IsOf};

    ghost Value = { List EntryRecord };

    ghost view = { λ v. v.known };

    ghost invariant = { λ v. IsOf J.origin J.book.history (known_by v.reader.place) };
}

impl<J: HubName> Viewer<J> {
    pub(crate) fn new(reader: IssueReader, commits: Beginning<J>) -> Viewer<J>
        requires { IsOf J.origin J.book.history (view reader.place) }
        ensures { result ≡ commits }
    {
        Viewer {
            reader,
            known: Note::new(commits, None),
        }
    }

    /// The snapshot that is published now: of a list of commits that begins with all that this viewer saw or was told of before.
    /// It takes no lock and waits for nobody, also while a commit is carried out.
    pub fn look(&mut self) -> Result<Arc<Snapshot>, LookFault>
        ensures later { StartsWith self.new self.old }
        ensures snapshot { IfOk result (λ snapshot. arc_value snapshot ≡ snapshot_after J.origin self.new) }
        ensures closed { result ≡ Err LookFault.Closed → self.new ≡ self.old }
    {
        let found = replace_with(
            &mut self.reader,
            (),
            |reader, _nothing| look_by::<J>(reader),
        );
        match found {
            Some((commits, snapshot)) => self.known.keep(commits, snapshot),
            None => Err(LookFault::Closed),
        }
    }

    // The commits that it saw or was told of.
    pub(crate) fn commits(&self) -> &Beginning<J>
        ensures { result.now ≡ self.now }
    {
        &self.known.commits
    }

    /// Is told what was published when the receipt was made. It takes no memory, no lock, and waits for nobody.
    pub fn learn(&mut self, receipt: Receipt<J>)
        ensures longer { self.new ≡ longer self.old receipt.told }
        ensures own { StartsWith self.new self.old }
        ensures told { StartsWith self.new receipt.told }
    {
        let Receipt {
            reply: _,
            shown: _,
            note,
        } = receipt;
        if !self.known.commits.reaches(&note.commits) {
            self.known = note;
        }
    }
}

// The commits that are published, and their snapshot; none where the writer is gone.
fn look_by<J: HubName>(
    reader: IssueReader,
) -> (
    IssueReader,
    Option<(Beginning<J>, Result<Arc<Snapshot>, AllocError>)>,
)
    requires { IsOf J.origin J.book.history (view reader.place) }
    ensures of { IsOf J.origin J.book.history (view result.0.place) }
    ensures found { IfSome result.1 (λ found. (view result.0.place ≡ Some (issue_of J.origin J.book.history found.0))
        × IfOk found.1 (λ snapshot. arc_value snapshot ≡ snapshot_after J.origin found.0)) }
{
    match reader.enter_as::<Sees>() {
        Ok(reading) => {
            let issue = reading.get();
            let commits = issue.commits::<J>();
            let snapshot = issue.snapshot();
            (reading.leave(), Some((commits, snapshot)))
        }
        Err(reader) => (reader, None),
    }
}
