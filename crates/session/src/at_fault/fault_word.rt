//! A word at fault.

/// A word at fault, borrowed from where it was read.
#[derive(Clone, Copy, Drop)]
pub enum FaultWord<'a> {
    /// As it was read.
    Text(&'a [u8]),
    /// As a number, in decimal digits.
    Number(u64),
}
