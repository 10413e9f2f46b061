//! What the program prints, the last words on standard error, and the status.

ghost use Rattle.std.specs.Prelude.{◌≡◌};
ghost use Rattle.devices.specs.Outgoing.{Adds};
ghost use Rattle.programs.specs.Endings.{Says};
ghost use Rattle.programs.specs.kept.Endings.{Prints};
ghost use Rattle.racer.specs.Endings.{end_status, fault_text, last_words, looks_line, output_text, script_line, status_by};

use crate::race::RaceEnd;
use devices::{Sink, Writer};
use programs::{BROKEN_OFF, Breakdown, ENDED, REFUSED, break_off, say_breakdown, say_design};

/// Prints how a race ended, its looks on `output` and all else on `errors`, and answers the status. Where the output fails,
/// that is the end; a write to `errors` that fails is passed over (own).
pub fn ending<W: Sink, E: Sink>(end: &RaceEnd, output: &mut W, errors: &mut E) -> u8
    ensures { (printed : Says (W.contents output.old) (W.contents output.new) (W.failures output.old) (W.failures output.new) (output_text end.now))
        × Says (E.contents errors.old) (E.contents errors.new) (E.failures errors.old) (E.failures errors.new) (last_words printed.stopped end.now)
        × (result ≡ status_by printed.stopped end.now) }
{
    if print(end, output) {
        break_off(Breakdown::Write, errors)
    } else {
        end_with(end, errors)
    }
}

// Prints the looks, and tells whether the output failed.
fn print<W: Sink>(end: &RaceEnd, output: &mut W) -> bool
    ensures { Prints (W.contents output.old) (W.contents output.new)
        (W.failures output.old) (W.failures output.new) (output_text end.now) result }
{
    let mut writer = Writer::new(output);
    say_looks(&mut writer, end);
    let _ = writer.flush();
    let failed = writer.is_stopped();
    let _output = writer.finish();
    failed
}

fn say_looks<W: Sink>(writer: &mut Writer<'_, W>, end: &RaceEnd)
    ensures { Adds writer.old writer.new (output_text end.now) }
{
    if let RaceEnd::Looks(tally) = end {
        say_count(writer, tally.looks(), tally.wrong());
    }
}

fn say_count<W: Sink>(writer: &mut Writer<'_, W>, looks: u64, wrong: u64)
    ensures { Adds writer.old writer.new (looks_line looks wrong) }
{
    writer.text(b"looks ");
    writer.number(looks);
    writer.text(b" wrong ");
    writer.number(wrong);
    writer.text(b"\n");
}

// Says on `errors` why a race ended without looks.
fn end_with<E: Sink>(end: &RaceEnd, errors: &mut E) -> u8
    ensures text { Says (E.contents errors.old) (E.contents errors.new) (E.failures errors.old) (E.failures errors.new) (fault_text end.now) }
    ensures status { result ≡ end_status end.now }
{
    let mut writer = Writer::new(errors);
    say_fault(&mut writer, end);
    let _ = writer.flush();
    let _errors = writer.finish();
    status_of(end)
}

fn say_fault<E: Sink>(writer: &mut Writer<'_, E>, end: &RaceEnd)
    ensures { Adds writer.old writer.new (fault_text end.now) }
{
    match end {
        RaceEnd::Looks(_) => {}
        RaceEnd::Script(line) => say_line(writer, *line),
        RaceEnd::Design(fault) => say_design(writer, *fault),
        RaceEnd::Memory => say_breakdown(writer, Breakdown::OutOfMemory),
    }
}

fn say_line<E: Sink>(writer: &mut Writer<'_, E>, line: u64)
    ensures { Adds writer.old writer.new (script_line line) }
{
    writer.text(b"script line ");
    writer.number(line);
    writer.text(b"\n");
}

fn status_of(end: &RaceEnd) -> u8
    ensures { result ≡ end_status end.now }
{
    match end {
        RaceEnd::Looks(tally) if tally.wrong() == 0 => ENDED,
        RaceEnd::Looks(_) | RaceEnd::Script(_) | RaceEnd::Design(_) => REFUSED,
        RaceEnd::Memory => BROKEN_OFF,
    }
}
