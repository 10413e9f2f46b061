//! The text that teaches how to use the program.

/// What is said where the words after the program's name are refused, or ask for help. With the lines on a word at fault
/// it fits a screen of 24 lines of 80 columns.
pub const HELP: &str = "\
Usage: gaterace DESIGN SCRIPT VIEWERS LOOKS

Two editors commit the edits of a script to one design, while viewers look at
it, each in a thread of its own. Each look is compared with a run of its design
from scratch. It prints `looks N wrong W`: of N looks W were wrong.

  DESIGN         the file of the design text, which is structural Verilog
  SCRIPT         the file of the edits, in the lines of a session of gatebench
  VIEWERS        how many viewers there are: 1 to 64
  LOOKS          how often each of them looks: 1 to 1000000
  --version      prints the version, and does nothing else

docs/GUIDE.md leads to an example, the lines, the faults and the statuses.
";
