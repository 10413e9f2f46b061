//! Which program this is: it goes by the name that it is started by.

ghost use Rattle.std.specs.Prelude.{◌≡◌};
ghost use Rattle.app.specs.Programs.{is_tool, program_name};
ghost use Rattle.app.specs.kept.Programs.{is_tool_name, program_by};

/// The programs that this one is, by its name.
#[derive(Clone, Copy, Debug, PartialEq, Eq)]
pub enum Program {
    /// `gatebench`, for a person at a prompt.
    Gatebench,
    /// `gatetool`, which knows the questions of tools beside the commands.
    Gatetool,
}

/// The path of a file that is called `gatetool`, in any folder.
const TOOL_PATH: &[u8] = b"/gatetool";

impl Program {
    /// The program that is started by this word, the first of the command line: `gatetool` where that is the name of the
    /// file, behind the last `/`, and `gatebench` by any other name (own).
    pub fn of(word: &str) -> Program
        ensures { result ≡ program_by word.now }
    {
        if is_tool_name(word.as_bytes()) {
            Program::Gatetool
        } else {
            Program::Gatebench
        }
    }

    /// The program's name.
    pub fn name(self) -> &'static str
        ensures { result.now ≡ program_name self }
    {
        match self {
            Program::Gatebench => "gatebench",
            Program::Gatetool => "gatetool",
        }
    }

    /// Whether it knows the questions of tools.
    pub fn is_tool(self) -> bool
        ensures { result ≡ is_tool self }
    {
        match self {
            Program::Gatebench => false,
            Program::Gatetool => true,
        }
    }
}

fn is_tool_name(word: &[u8]) -> bool
    ensures { result ≡ is_tool_name word.now }
{
    let place = word.len().saturating_sub(TOOL_PATH.len());
    word == b"gatetool".as_slice() || &word[place..] == TOOL_PATH
}
