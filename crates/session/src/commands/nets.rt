//! The commands that change nets. Each is read behind its first word; none where the words are unreadable.

ghost use Rattle.std.specs.Prelude.{◌≡◌};
ghost use Rattle.session.specs.EditLines.{drop_net_edit, input_edit, kind_edit, net_edit};

use crate::commands::edit_line::EditLine;
use crate::words::Words;
use fourstate::NetKind;

/// `net N KIND`.
pub fn read_net(words: Words<'_>) -> Option<EditLine<'_>>
    ensures { result ≡ net_edit words.entry }
{
    let (name, kind) = words.two()?;
    let kind = NetKind::from_keyword(kind.as_bytes())?;
    Some(EditLine::AddNet { name, kind })
}

/// `input N`.
pub fn read_input(words: Words<'_>) -> Option<EditLine<'_>>
    ensures { result ≡ input_edit words.entry }
{
    let name = words.one()?;
    Some(EditLine::AddInput { name })
}

/// `dropnet N`.
pub fn read_drop_net(words: Words<'_>) -> Option<EditLine<'_>>
    ensures { result ≡ drop_net_edit words.entry }
{
    let name = words.one()?;
    Some(EditLine::DropNet { name })
}

/// `kind N KIND`.
pub fn read_kind(words: Words<'_>) -> Option<EditLine<'_>>
    ensures { result ≡ kind_edit words.entry }
{
    let (name, kind) = words.two()?;
    let kind = NetKind::from_keyword(kind.as_bytes())?;
    Some(EditLine::SetNetKind { name, kind })
}
