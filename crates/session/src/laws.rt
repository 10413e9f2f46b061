//! What holds of a session's definitions. These calls do nothing at run time.

ghost use Rattle.std.specs.Prelude.{◌≡◌, ◌≢◌, ℕ, Bool, List, false};
ghost use Rattle.session.specs.declared.commands.command.Command.TheVariants.{Unreadable};
ghost use Rattle.session.specs.declared.commands.command.TheConstants.{LINE_LIMIT};
ghost use Rattle.session.specs.declared.commands.request.Request.TheVariants.{Plain};
ghost use Rattle.session.specs.declared.commands.tool.TheConstants.{MAX_PARTS};
ghost use Rattle.session.specs.declared.held.TheConstants.{MAX_HELD};
ghost use Rattle.session.specs.declared.talk.exchange.TheConstants.{PIECE};
ghost use Rattle.session.specs.Commands.{command_of};
ghost use Rattle.session.specs.ToolCommands.{request_by};

/// How long a line may be, how many bytes are read at once at most, how many snapshots are held at once at most, and into how
/// many parts a window is cut at most.
pub fn limits()
    ensures line { LINE_LIMIT ≡ 4096 }
    ensures piece { PIECE ≡ 4096 }
    ensures held { MAX_HELD ≡ 64 }
    ensures parts { MAX_PARTS ≡ 65536 }
{}

/// The questions of tools are lines that are no commands without them, and so is a line that names the word at fault: without
/// tools each line is read as ever, and with them each that is readable as ever. Nothing names a word then.
#[tactic(auto, using(crate::proofs::ToolLemmas::read_as_ever))]
pub fn tool_questions()
    ensures without { (line : List ℕ) → request_by false line ≡ Plain (command_of line) }
    ensures beside { (tools : Bool) (line : List ℕ) → command_of line ≢ Unreadable → request_by tools line ≡ Plain (command_of line) }
{}
