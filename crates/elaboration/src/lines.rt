//! The lines of faults.

ghost use Rattle.std.specs.Prelude.{◌≡◌};
ghost use Rattle.lexing.specs.Lines.{line_of};
ghost use Rattle.elaboration.specs.Ports.{fault_at};

use lexing::line;
use vtext::{ReadFault, ReadFaultKind};

/// A fault at a place of a text; past the text's end, at the end.
pub fn fault_at(text: &[u8], start: u32, kind: ReadFaultKind) -> ReadFault
    ensures { result ≡ fault_at text.now start kind }
{
    ReadFault {
        line: line_at(text, start as usize) as u64,
        kind,
    }
}

/// The line of a place; past the text's end, that of the end.
#[tactic(auto, using(crate::proofs::LineLemmas::same_line))]
fn line_at(text: &[u8], at: usize) -> usize
    ensures { result ≡ line_of text.now at }
{
    line(text, at.min(text.len()))
}
