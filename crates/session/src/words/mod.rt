//! The words of a line, and what they write.

mod numbers;
mod raw;
mod scan;
mod walk;

pub use numbers::number;
pub use raw::RawWords;
pub use scan::{are_plain, without_blanks};
pub use walk::{WordRef, Words};
