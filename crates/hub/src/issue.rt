//! What is published for viewers.

ghost use Rattle.std.specs.Prelude.{◌≡◌, length, IfOk};
ghost use Rattle.std.specs.Arc.{arc_value};
ghost use Rattle.hub.specs.Commits.{snapshot_after};
ghost use Rattle.hub.specs.kept.Issues.{issue_of, published};

use crate::history::{Beginning, Reached};
use crate::name::HubName;
use bench::Snapshot;
use left_right::Absorb;
use std::alloc::AllocError;
use std::marker::Model;
use std::sync::Arc;

/// A snapshot with the commits that made it from the one that the hub began with. The type keeps that it is theirs.
#[derive(Drop)]
pub struct Issue {
    snapshot: Arc<Snapshot>,
    origin: Arc<Snapshot>,
    len: u64,
    reached: Reached,
}

impl Model for Issue {
    ghost use Rattle.std.specs.Prelude.{◌≡◌, length};
    ghost use Rattle.std.specs.Arc.{arc_value};
    ghost use Rattle.hub.specs.Commits.{snapshot_after};
    ghost use Rattle.hub.specs.kept.Issues.{IssueRecord, issue_of};

    ghost Value = { IssueRecord };

    ghost view = { λ i. issue_of (arc_value i.origin) i.reached.book i.reached.log };

    ghost invariant = { λ i. (i.len ≡ length i.reached.log) × (arc_value i.snapshot ≡ snapshot_after (arc_value i.origin) i.reached.log) };
}

impl Issue {
    /// The snapshot after so many commits, which the history has reached.
    pub(crate) fn of(
        snapshot: &Arc<Snapshot>,
        origin: &Arc<Snapshot>,
        len: u64,
        reached: &Reached,
    ) -> Result<Issue, AllocError>
        requires len { len ≡ length reached.now.log }
        requires snapshot { arc_value snapshot.now ≡ snapshot_after (arc_value origin.now) reached.now.log }
        ensures { IfOk result (λ issue. issue ≡ issue_of (arc_value origin.now) reached.now.book reached.now.log) }
    {
        let snapshot = Arc::try_clone(snapshot)?;
        let origin = Arc::try_clone(origin)?;
        Ok(Issue {
            snapshot,
            origin,
            len,
            reached: reached.again(),
        })
    }

    /// The same, once more.
    pub(crate) fn try_clone(&self) -> Result<Issue, AllocError>
        ensures { IfOk result (λ issue. issue ≡ self.now) }
    {
        Issue::of(&self.snapshot, &self.origin, self.len, &self.reached)
    }

    /// The commits.
    pub(crate) fn commits<J: HubName>(&self) -> Beginning<J>
        requires { self.now.book ≡ J.book.history }
        ensures { result ≡ self.now.log }
    {
        Beginning::of(self.len, &self.reached)
    }

    /// The snapshot.
    pub(crate) fn snapshot(&self) -> Result<Arc<Snapshot>, AllocError>
        ensures { IfOk result (λ snapshot. arc_value snapshot ≡ published self.now) }
    {
        Arc::try_clone(&self.snapshot)
    }
}

// The last one that is published stays.
impl Absorb<Issue> for Issue {
    type State = Issue;

    ghost state = { λ issue. issue };

    ghost applied = { λ _ next. next };

    fn absorb_first(&mut self, operation: &Issue, _other: &Issue) -> Result<(), AllocError> {
        *self = operation.try_clone()?;
        Ok(())
    }

    fn absorb_second(&mut self, operation: Issue, _other: &Issue) -> Result<(), Issue> {
        *self = operation;
        Ok(())
    }
}
