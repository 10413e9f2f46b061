//! A line, read by itself.

ghost use Rattle.session.specs.Commands.{command_of};
ghost use Rattle.session.specs.kept.LineReadings.{IsReadTo};

use crate::commands::{Command, EditLine, read};
use crate::said::{Line, LineFault};
use std::alloc::Global;

/// Reads a line, which comes without its line feed. It takes memory only for the words of an edit.
pub fn line(alloc: Global, line: &[u8]) -> Result<Line, LineFault>
    ensures { IsReadTo (command_of line.now) result }
{
    match read(line) {
        Command::Skip => Ok(Line::Skip),
        Command::Change(edit) => own(alloc, &edit),
        Command::Begin => Ok(Line::Begin),
        Command::Commit => Ok(Line::Commit),
        Command::Abort => Ok(Line::Abort),
        Command::Unreadable => Err(LineFault::BadCommand),
        Command::TooLong => Err(LineFault::LongLine),
        _ => Ok(Line::Other),
    }
}

fn own(alloc: Global, edit: &EditLine<'_>) -> Result<Line, LineFault>
    ensures { IsReadTo (Command.Change edit.now) result }
{
    match edit.to_edit(alloc) {
        Ok(edit) => Ok(Line::Edit(edit)),
        Err(_) => Err(LineFault::OutOfMemory),
    }
}
