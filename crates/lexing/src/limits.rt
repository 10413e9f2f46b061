//! Limits of a text.

/// The most bytes of a text (own).
pub const MAX_TEXT: usize = 4_194_304;
