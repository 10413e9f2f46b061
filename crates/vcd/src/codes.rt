//! Identifier codes.

ghost use Rattle.std.specs.Prelude.{◌≡◌, ◌+◌, ◌%◌};
ghost use Rattle.devices.specs.Outgoing.{Adds};
ghost use Rattle.vcd.specs.Codes.{code_of};

use devices::{Sink, Writer};

/// How many printable characters a code is made of, and the first of them (IEEE 1364-2005, 18.2).
pub(crate) const CHARACTERS: usize = 94;

const FIRST: u8 = b'!';

/// The character of the remainder of `n`.
#[inline(always)]
pub(crate) fn character(n: usize) -> u8
    ensures { result ≡ 33 + n % 94 }
{
    FIRST + (n % CHARACTERS) as u8
}

/// Writes the code of net `n`, counted from 0.
pub fn code<W: Sink>(writer: &mut Writer<'_, W>, n: usize)
    ensures { Adds writer.old writer.new (code_of n) }
{
    let mut rest = n;
    while rest >= CHARACTERS {
        writer.text(&[FIRST + (rest % CHARACTERS) as u8]);
        rest = rest / CHARACTERS - 1;
    }
    writer.text(&[FIRST + rest as u8]);
}
