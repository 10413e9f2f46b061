//! Limits of a hierarchy.

/// How many levels of modules there may be, the top being one (own).
pub const MAX_DEPTH: usize = 32;

/// How many instances there may be in all, the top not counted (own).
pub const MAX_INSTANCES: usize = 65_536;
