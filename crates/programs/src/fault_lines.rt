//! The lines on standard error that say why a program ended early.

ghost use Rattle.std.specs.Prelude.{◌≡◌};
ghost use Rattle.devices.specs.Outgoing.{Adds};
ghost use Rattle.programs.specs.Endings.{Says, breakdown_line, design_line};

use crate::status::BROKEN_OFF;
use devices::{Sink, Writer};
use vtext::ReadFault;

/// Why a program broke off.
#[derive(Clone, Copy, Debug, PartialEq, Eq)]
pub enum Breakdown {
    /// An allocation was refused.
    OutOfMemory,
    /// A read failed.
    Read,
    /// A write failed.
    Write,
}

/// Says why a program broke off.
pub fn say_breakdown<W: Sink>(writer: &mut Writer<'_, W>, breakdown: Breakdown)
    ensures { Adds writer.old writer.new (breakdown_line breakdown) }
{
    match breakdown {
        Breakdown::OutOfMemory => writer.text(b"out of memory\n"),
        Breakdown::Read => writer.text(b"read failed\n"),
        Breakdown::Write => writer.text(b"write failed\n"),
    }
}

/// Says on `errors` why the program broke off, and answers the status. A write that fails is passed over (own).
pub fn break_off<E: Sink>(breakdown: Breakdown, errors: &mut E) -> u8
    ensures text { Says (E.contents errors.old) (E.contents errors.new) (E.failures errors.old) (E.failures errors.new) (breakdown_line breakdown) }
    ensures status { result ≡ 3 }
{
    let mut writer = Writer::new(errors);
    say_breakdown(&mut writer, breakdown);
    let _ = writer.flush();
    let _errors = writer.finish();
    BROKEN_OFF
}

/// Says why a design text is refused, and where.
pub fn say_design<W: Sink>(writer: &mut Writer<'_, W>, fault: ReadFault)
    ensures { Adds writer.old writer.new (design_line fault) }
{
    writer.text(b"line ");
    writer.number(fault.line);
    writer.text(b": ");
    writer.number(u64::from(fault.kind.code()));
    writer.text(b" ");
    writer.text(fault.kind.name().as_bytes());
    writer.text(b"\n");
}
