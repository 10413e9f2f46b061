//! What programs say of the words that they refuse.

ghost use Rattle.std.specs.Prelude.{◌≡◌};
ghost use Rattle.devices.specs.Outgoing.{Adds};
ghost use Rattle.programs.specs.Refusals.{missing_lines, range_line, value_line, words_lines};

use crate::words_fault::WordsFault;
use devices::{Sink, Writer};

/// Says what is wrong with words that do not have the form of the command line. It says nothing where they ask for help
/// or for the version.
pub fn say_words_fault<W: Sink>(writer: &mut Writer<'_, W>, fault: &WordsFault)
    ensures { Adds writer.old writer.new (words_lines fault.now) }
{
    match fault {
        WordsFault::Help | WordsFault::Version => {}
        WordsFault::NotText => writer.text(
            b"error: invalid UTF-8 was detected in one or more arguments\n\n",
        ),
        WordsFault::Form(_, lines) => {
            writer.text(lines.as_str().as_bytes());
            writer.text(b"\n\n");
        }
    }
}

/// Says which words are missing, by a line for each, as `  <DESIGN>`.
pub fn say_missing<W: Sink>(writer: &mut Writer<'_, W>, lines: &str)
    ensures { Adds writer.old writer.new (missing_lines lines.now) }
{
    writer.text(b"error: the following required arguments were not provided:\n");
    writer.text(lines.as_bytes());
    writer.text(b"\n");
}

/// Says which value of an argument is at fault.
pub fn say_value<W: Sink>(writer: &mut Writer<'_, W>, value: &str, argument: &str)
    ensures { Adds writer.old writer.new (value_line value.now argument.now) }
{
    writer.text(b"error: invalid value '");
    writer.text(value.as_bytes());
    writer.text(b"' for '");
    writer.text(argument.as_bytes());
    writer.text(b"'\n");
}

/// Says which numbers are wanted.
pub fn say_range<W: Sink>(writer: &mut Writer<'_, W>, least: u64, most: u64)
    ensures { Adds writer.old writer.new (range_line least most) }
{
    writer.text(b"  [possible values: ");
    writer.number(least);
    writer.text(b" to ");
    writer.number(most);
    writer.text(b", in digits alone]\n\n");
}
