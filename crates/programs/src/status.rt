//! The statuses that programs end with (own).

/// The program did what it was started for, and found nothing wrong.
pub const ENDED: u8 = 0;

/// What a file says is refused, or something was found wrong.
pub const REFUSED: u8 = 1;

/// The words after the program's name are refused, or ask for help.
pub const WORDS_REFUSED: u8 = 2;

/// A read or a write failed, memory ran out or a worker was lost.
pub const BROKEN_OFF: u8 = 3;
