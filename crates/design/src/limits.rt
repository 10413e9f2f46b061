//! The limits of a design, each in this one place (own).

/// The most bytes of a name.
pub const MAX_NAME: usize = 1_024;

/// The most nets of a design.
pub const MAX_NETS: usize = 65_536;

/// The most gates of a design.
pub const MAX_GATES: usize = 65_536;

/// The most stimulus points of a design, over all its inputs.
pub const MAX_POINTS: usize = 1_048_576;
