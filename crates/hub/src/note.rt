//! What an editor can tell a viewer.

ghost use Rattle.std.specs.Prelude.{◌≡◌, IfErr, IfOk, IfSome};
ghost use Rattle.std.specs.Arc.{arc_value};
ghost use Rattle.hubcore.specs.Lists.{StartsWith};
ghost use Rattle.hub.specs.Commits.{snapshot_after};
ghost use Rattle.hub.specs.kept.Issues.{issue_of};

use crate::fault::LookFault;
use crate::history::Beginning;
use crate::issue::Issue;
use crate::name::HubName;
use bench::Snapshot;
use std::alloc::AllocError;
use std::marker::Model;
use std::sync::Arc;

/// What was published at a time, and the snapshot if there was room for one owner more. Contracts see it as the list of commits.
#[derive(Drop)]
pub struct Note<J: HubName> {
    pub(crate) commits: Beginning<J>,
    pub(crate) issue: Option<Issue>,
}

impl<J: HubName> Model for Note<J> {
    ghost use Rattle.std.specs.Prelude.{◌≡◌, List, IfSome};
    ghost use Rattle.hubcore.specs.Lists.{EntryRecord};
    ghost use Rattle.hub.specs.kept.Issues.{issue_of};

    ghost Value = { List EntryRecord };

    ghost view = { λ n. n.commits };

    ghost invariant = { λ n. IfSome n.issue (λ issue. issue ≡ issue_of J.origin J.book.history n.commits) };
}

impl<J: HubName> Note<J> {
    pub(crate) fn new(commits: Beginning<J>, issue: Option<Issue>) -> Note<J>
        requires { IfSome issue (λ issue. issue ≡ issue_of J.origin J.book.history commits) }
        ensures { result ≡ commits }
    {
        Note { commits, issue }
    }
    /// Keeps what a look found, and gives its snapshot.
    #[tactic(auto, using(crate::proofs::Beginnings::starts_same))]
    pub(crate) fn keep(
        &mut self,
        commits: Beginning<J>,
        found: Result<Arc<Snapshot>, AllocError>,
    ) -> Result<Arc<Snapshot>, LookFault>
        requires { IfOk found (λ snapshot. arc_value snapshot ≡ snapshot_after J.origin commits) }
        ensures later { StartsWith self.new self.old }
        ensures snapshot { IfOk result (λ snapshot. arc_value snapshot ≡ snapshot_after J.origin self.new) }
        ensures fault { IfErr result (λ fault. fault ≡ LookFault.OutOfMemory) }
    {
        if !commits.reaches(&self.commits) {
            // Who told of more told of what was published, so this does not happen.
            return self.snapshot();
        }
        *self = Note::new(commits, None);
        found.map_err(|_| LookFault::OutOfMemory)
    }

    // The snapshot that was published then.
    fn snapshot(&self) -> Result<Arc<Snapshot>, LookFault>
        ensures snapshot { IfOk result (λ snapshot. arc_value snapshot ≡ snapshot_after J.origin self.now) }
        ensures fault { IfErr result (λ fault. fault ≡ LookFault.OutOfMemory) }
    {
        match &self.issue {
            Some(issue) => issue.snapshot().map_err(|_| LookFault::OutOfMemory),
            None => Err(LookFault::OutOfMemory),
        }
    }
}
