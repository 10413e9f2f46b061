//! What the programs share: their command lines, the files that they read, and what they say at their ends.
#![tactic(auto)]

mod command_line;
mod fault_lines;
mod file;
mod memory;
mod not_started;
mod numbers;
mod refusal;
mod status;
mod version;
mod words;
mod words_fault;

pub use command_line::{option_of, parse, positional, program};
pub use fault_lines::{Breakdown, break_off, say_breakdown, say_design};
pub use file::{all_bytes_of, breakdown_of, first_bytes_of, text_of};
pub use memory::keep_freed_memory;
pub use not_started::{StopCause, stop};
pub use numbers::number_of;
pub use refusal::{say_missing, say_range, say_value, say_words_fault};
pub use status::{BROKEN_OFF, ENDED, REFUSED, WORDS_REFUSED};
pub use version::{VERSION, tell_version};
pub use words::{NoWords, words_after_name};
pub use words_fault::{WordsFault, fault_of_form};
