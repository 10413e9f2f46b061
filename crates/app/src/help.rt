//! The text that teaches how to use the program.

/// What is said where the words after the program's name are refused, or ask for help, begins with this and the program's
/// name. With the lines on a word at fault the text fits a screen of 24 lines of 80 columns.
pub const USAGE: &str = "Usage: ";

/// Then this comes, and the name once more.
pub const EXPLANATION: &str = " DESIGN [--horizon H] [--workers N] [--delay D]

Simulates a gate-level design. Commands come from the standard input, one a
line, and each gets its reply on the standard output.

  DESIGN         the file of the design text, which is structural Verilog
  --horizon H    the last moment of a run: 0 to 1099511627776, 1000 if not given
  --workers N    how many workers there are: 1 to 64, 1 if not given
  --delay D      the delay of gates that are written without one: 1 to 1000000
  --version      prints the version, and does nothing else

For example, where the file m.v holds a gate that inverts its input,

    module m(input a, output y); not #(2,3) g(y, a); endmodule

this shows each change of y up to moment 20, `2 1` among them:

    printf 'stim a 0 0\\nwave y\\n' | ";

/// And then this.
pub const ENDING: &str = " m.v --horizon 20

docs/GUIDE.md leads to the commands, the design texts, the faults and statuses.
";
