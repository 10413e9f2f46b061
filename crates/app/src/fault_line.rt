//! The second line about a refused design text: the word at which its fault lies.

ghost use Rattle.std.specs.Prelude.{◌≡◌, length};
ghost use Rattle.devices.specs.Outgoing.{Adds};
ghost use Rattle.lexing.specs.kept.Texts.{IsInside};
ghost use Rattle.vread.specs.kept.Details.{IsWordInside};
ghost use Rattle.app.specs.FaultLines.{fault_line, token_line, token_text};

use devices::{Sink, Writer};
use lexing::{Shape, Token, column, shown};
use vread::{FaultDetail, FaultWord};

/// Says at which word of a refused text its fault lies; nothing where no word is at fault (own).
pub fn say_fault_line<W: Sink>(writer: &mut Writer<'_, W>, text: &[u8], detail: &FaultDetail)
    requires { IsWordInside (length text.now) detail.now.word }
    ensures { Adds writer.old writer.new (fault_line text.now detail.now) }
{
    match detail.word {
        FaultWord::Nothing => {}
        FaultWord::End => writer.text(b"  the text ends\n"),
        FaultWord::Token(token) => say_token_line(writer, text, token, detail.party.as_slice()),
    }
}

fn say_token_line<W: Sink>(writer: &mut Writer<'_, W>, text: &[u8], token: Token, party: &[u8])
    requires { IsInside (length text.now) token }
    ensures { Adds writer.old writer.new (token_line text.now token party.now) }
{
    writer.text(b"  ");
    say_token(writer, text, token);
    writer.text(b", column ");
    writer.number(column(text, token.start as usize) as u64);
    writer.text(party);
    writer.text(b"\n");
}

/// Says a token, or the number of a byte that no text may hold.
fn say_token<W: Sink>(writer: &mut Writer<'_, W>, text: &[u8], token: Token)
    requires { IsInside (length text.now) token }
    ensures { Adds writer.old writer.new (token_text text.now token) }
{
    match token.shape {
        Shape::Stray => {
            writer.text(b"byte ");
            writer.number(u64::from(text[token.start as usize]));
        }
        _ => {
            writer.text(b"word ");
            writer.text(shown(text, token));
        }
    }
}
