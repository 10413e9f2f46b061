//! Tasks that are dealt together.

/// Some of the tasks of a moment, one after another.
#[derive(Clone, Copy, Debug, PartialEq, Eq)]
pub struct Piece {
    /// The place of the piece among all pieces.
    pub number: u32,
    /// The place of its first task among all tasks.
    pub first: usize,
    /// The place behind its last task.
    pub end: usize,
}
