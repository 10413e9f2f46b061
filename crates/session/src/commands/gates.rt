//! The commands that change gates by themselves: `drop`, `delay` and `type`. Each is read behind its first word; none where
//! the words are unreadable.

ghost use Rattle.std.specs.Prelude.{◌≡◌};
ghost use Rattle.session.specs.EditLines.{delay_edit, drop_edit, type_edit};

use crate::commands::edit_line::EditLine;
use crate::commands::times::take_delays;
use crate::words::Words;
use fourstate::GateKind;

/// `drop G`.
pub fn read_drop(words: Words<'_>) -> Option<EditLine<'_>>
    ensures { result ≡ drop_edit words.entry }
{
    let name = words.one()?;
    Some(EditLine::DropGate { name })
}

/// `delay G R F`, or `F/Z` in place of `F`.
pub fn read_delay(words: Words<'_>) -> Option<EditLine<'_>>
    ensures { result ≡ delay_edit words.entry }
{
    let mut rest = words;
    let name = rest.next()?;
    let delays = take_delays(&mut rest)?;
    if rest.none() {
        Some(EditLine::SetDelay { name, delays })
    } else {
        None
    }
}

/// `type G KIND`.
pub fn read_type(words: Words<'_>) -> Option<EditLine<'_>>
    ensures { result ≡ type_edit words.entry }
{
    let (name, kind) = words.two()?;
    let kind = GateKind::from_keyword(kind.as_bytes())?;
    Some(EditLine::SetGateKind { name, kind })
}
