//! The reply to an event.

/// The reply to an event.
#[derive(Clone, Copy, Debug, PartialEq, Eq)]
pub enum Reply {
    /// It happened.
    Done,
    /// A look gives the snapshot of this length.
    At(u64),
}
