//! The limit of a list of edits, in this one place (own).

/// The most edits of a list that is carried out as one.
pub const MAX_EDITS: usize = 4_096;
