//! What a line says, by itself.

use edits::Edit;
use thiserror::Error;

/// What a line says. It borrows nothing from the line.
#[derive(Debug, Drop)]
pub enum Line {
    /// Nothing: the line is blank or a comment.
    Skip,
    /// An edit of the design. It is not checked.
    Edit(Edit),
    /// The beginning of a batch.
    Begin,
    /// The commit of the batch.
    Commit,
    /// The end of the batch without a commit.
    Abort,
    /// What edits nothing: a question, a name that is held or freed, or the end of the session.
    Other,
}

/// Why a line says nothing.
#[derive(Clone, Copy, Debug, PartialEq, Eq, Error)]
pub enum LineFault {
    /// The line can't be read.
    #[error("bad command")]
    BadCommand = 1,
    /// The line is too long.
    #[error("long line")]
    LongLine = 2,
    /// An allocation was refused.
    #[error("out of memory")]
    OutOfMemory = 3,
}
