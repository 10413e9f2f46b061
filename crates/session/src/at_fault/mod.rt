//! The words at fault of refused lines.

mod commits;
mod edit_words;
mod fault_word;
mod forms;
mod questions;
mod unfit;

pub use commits::commit_word;
pub use fault_word::FaultWord;
pub use questions::{hold_word, question_word};
pub use unfit::unreadable_word;
