//! The version of the programs.

ghost use Rattle.std.specs.Prelude.{◌≡◌, MatchBool};
ghost use Rattle.devices.specs.Outgoing.{Adds};
ghost use Rattle.programs.specs.Endings.{Says, breakdown_line, version_line};
ghost use Rattle.programs.specs.kept.Endings.{Prints};

use crate::fault_lines::{Breakdown, break_off};
use crate::status::ENDED;
use devices::{Sink, Writer};

/// The version of the programs, which the Python package has too.
pub const VERSION: &str = "0.1.0";

/// Prints the name of a program and its version on `output`, and answers the status. Where the output fails, that is the end,
/// and `errors` is told so.
pub fn tell_version<W: Sink, E: Sink>(program: &str, output: &mut W, errors: &mut E) -> u8
    ensures { (printed : Says (W.contents output.old) (W.contents output.new) (W.failures output.old) (W.failures output.new) (version_line program.now))
        × MatchBool printed.stopped
        (Says (E.contents errors.old) (E.contents errors.new) (E.failures errors.old) (E.failures errors.new) (breakdown_line Breakdown.Write) × (result ≡ 3))
        ((errors.new ≡ errors.old) × (result ≡ 0)) }
{
    if print_version(program, output) {
        break_off(Breakdown::Write, errors)
    } else {
        ENDED
    }
}

// Prints the line, and tells whether the output failed.
fn print_version<W: Sink>(program: &str, output: &mut W) -> bool
    ensures { Prints (W.contents output.old) (W.contents output.new)
        (W.failures output.old) (W.failures output.new) (version_line program.now) result }
{
    let mut writer = Writer::new(output);
    say_version(&mut writer, program);
    let _ = writer.flush();
    let failed = writer.is_stopped();
    let _output = writer.finish();
    failed
}

fn say_version<W: Sink>(writer: &mut Writer<'_, W>, program: &str)
    ensures { Adds writer.old writer.new (version_line program.now) }
{
    writer.text(program.as_bytes());
    writer.text(b" ");
    writer.text(VERSION.as_bytes());
    writer.text(b"\n");
}
