//! What a session writes.

mod answers;
mod lines;
mod refusal;

pub use answers::tell;
pub use lines::{no, ok};
pub use refusal::Refusal;
