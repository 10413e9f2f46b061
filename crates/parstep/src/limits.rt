//! How many workers a pool may have.

/// The most workers of a pool.
pub const MAX_WORKERS: u32 = 64;
