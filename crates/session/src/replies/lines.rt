//! The lines of replies.

ghost use Rattle.std.specs.Prelude.{◌≡◌, Some, map, option_map};
ghost use Rattle.devices.specs.Outgoing.{Adds};
ghost use Rattle.session.specs.Replies.{behind_refusal, ok_line, refusal_line, wave_lines};
ghost use Rattle.session.specs.kept.WordsAtFault.{shown};

use crate::at_fault::FaultWord;
use crate::replies::refusal::Refusal;
use devices::{Sink, Writer};
use waveform::Change;

/// The reply to a command that was carried out: the version after it.
pub fn ok<W: Sink>(writer: &mut Writer<'_, W>, version: u64)
    ensures { Adds writer.old writer.new (ok_line version) }
{
    writer.text(b"ok ");
    writer.number(version);
    writer.text(b"\n");
}

/// The reply to a command that was refused, with the word at fault where it names one.
pub fn no<W: Sink>(writer: &mut Writer<'_, W>, refusal: Refusal, word: Option<FaultWord<'_>>)
    ensures { Adds writer.old writer.new (refusal_line refusal (option_map shown word.entry)) }
{
    writer.text(b"no ");
    writer.number(u64::from(refusal.code()));
    writer.text(b" ");
    writer.text(refusal.name().as_bytes());
    if let Some(word) = word {
        name(writer, word);
    }
    writer.text(b"\n");
}

// The word at fault, behind a refusal.
fn name<W: Sink>(writer: &mut Writer<'_, W>, word: FaultWord<'_>)
    ensures { Adds writer.old writer.new (behind_refusal (Some (shown word.entry))) }
{
    writer.text(b" ");
    match word {
        FaultWord::Text(word) => writer.text(word),
        FaultWord::Number(n) => writer.number(n),
    }
}

/// A line for each change of a wave.
pub fn wave<W: Sink>(writer: &mut Writer<'_, W>, changes: &[Change])
    ensures { Adds writer.old writer.new (wave_lines changes.now) }
{
    for change in changes {
        listing::change(writer, change.time(), change.value());
    }
}
