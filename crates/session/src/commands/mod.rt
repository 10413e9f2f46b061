//! Lines, read as commands.

mod ask;
mod command;
mod edit_line;
mod gate;
mod gates;
mod held;
mod nets;
mod pins;
mod question;
mod request;
mod times;
mod tool;
mod tool_verb;
mod verb;

pub use command::{Command, LINE_LIMIT, read};
pub use edit_line::EditLine;
pub use pins::is_input;
pub use question::{ChangeName, Listing, NetQuestion, Query, Question};
pub use request::Request;
pub use times::{read_times, read_value};
pub use tool::{read_by, read_parts};
pub use tool_verb::ToolVerb;
pub use verb::{AskVerb, EditVerb, Verb};
