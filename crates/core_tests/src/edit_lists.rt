//! Lists of edits, worked out by hand.

mod accepted;
pub mod edit_lines;
mod refused;
mod touched;
