//! The exchange of input and replies.

ghost use Rattle.std.specs.Prelude.{◌<◌, ◌≤◌, Option, None, Some, List, ℕ, length, IfNone, MatchOption};
ghost use Rattle.devices.specs.kept.Incoming.{text_of};
ghost use Rattle.session.specs.State.{SessionState};
ghost use Rattle.session.specs.kept.Talk.{Ends, SameSink, SameSource, Waits, read_failures};

use crate::talk::feed::{Session, Turn};
use devices::{Reader, Sink, Source, Writer};
use gatestep::Stepper;

/// The most bytes that are asked of the source at once.
pub const PIECE: usize = 4_096;

/// How a session ended.
#[derive(Clone, Copy, Debug, PartialEq, Eq)]
pub enum End {
    /// At the input's end.
    Input,
    /// By a line.
    Quit,
    /// The source failed.
    ReadFailed,
    /// The sink failed.
    WriteFailed,
}

// Takes a piece of the input, and sends the replies.
pub fn exchange<R: Source, W: Sink, S: Stepper + Drop>(
    session: &mut Session<S>,
    reader: &mut Reader<'_, R>,
    writer: &mut Writer<'_, W>,
    buffer: &mut [u8],
) -> Option<End>
    requires room { 0 < length buffer.old }
    requires at_once { length buffer.old ≤ PIECE }
    ensures goes_on { (first : SessionState) → Waits first reader.old session.old.line session.old.machine writer.old
        → MatchOption result (Waits first reader.new session.new.line session.new.machine writer.new)
        (λ end. Ends end first reader.new writer.new) }
    // A session that goes on has read some bytes.
    ensures read_more { IfNone result (length (text_of reader.old) < length (text_of reader.new)) }
    ensures sink { SameSink writer.old writer.new }
    ensures source { SameSource reader.old reader.new (read_failures result) }
{
    let Some(n) = reader.read(buffer) else {
        return Some(End::ReadFailed);
    };
    let turn = session.take(&buffer[..n], writer);
    if writer.flush().is_err() {
        return Some(End::WriteFailed);
    }
    match turn {
        Turn::More => None,
        Turn::Quit => Some(End::Quit),
        Turn::Finished => Some(End::Input),
    }
}
