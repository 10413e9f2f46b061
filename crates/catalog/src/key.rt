//! Keys of records.

/// What a record of a catalog is known by, for as long as it is there. There is room for 4,294,967,295 at a time.
pub type Key = u32;
