//! What may happen to editors and viewers.

use bench::CommitFault;
use edits::Edit;

/// What may happen to editors and viewers. Viewers are numbered from 0, and a snapshot is named by its length, the number of
/// commits before it.
#[derive(Debug, Drop)]
pub enum Event {
    /// A commit of these edits was answered: by its new version, or refused.
    Submit(Vec<Edit>, Result<u64, CommitFault>),
    /// All accepted commits are shown to the viewers.
    Show,
    /// A viewer takes the snapshot that is shown, and holds it.
    Look(u32),
    /// A viewer is told that the snapshot of this length is shown.
    Learn(u32, u64),
    /// A viewer lets go of a snapshot of this length.
    Release(u32, u64),
}
