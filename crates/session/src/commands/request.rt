//! What a line asks, and how its refusal is to be told.

use crate::commands::command::Command;
use crate::words::RawWords;

/// What a line asks.
#[derive(Drop)]
pub enum Request<'a> {
    /// A command.
    Plain(Command<'a>),
    /// A command whose refusal names the word at fault, and the words of its line.
    Naming(Command<'a>, RawWords<'a>),
}
