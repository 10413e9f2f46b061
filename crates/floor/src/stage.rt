//! What has become of a piece.

/// What has become of a piece.
#[derive(Clone, Copy, Debug, PartialEq, Eq)]
pub enum Stage {
    Waiting,
    Out,
    Answered,
    Failed,
}
