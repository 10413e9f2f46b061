//! The limits of the project's profile, each in this one place (own).

/// The most inputs that a gate may have.
pub const MAX_INPUTS: usize = 64;

/// The greatest delay, in time units; the least is 1.
pub const MAX_DELAY: u64 = 1_000_000;

/// The last moment, in time units, of a stimulus point, a horizon and an evaluation.
pub const MAX_TIME: u64 = 1_099_511_627_776;
