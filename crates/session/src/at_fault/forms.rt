//! The forms of lines: of which kind their words are.

ghost use Rattle.std.specs.Prelude.{◌≡◌};
ghost use Rattle.std.specs.Option.{option_copied};
ghost use Rattle.session.specs.Forms.{ask_kinds, edit_kinds, is_of_kind, question_kinds, tool_kinds, verb_kinds};

use crate::commands::{
    AskVerb, EditVerb, ToolVerb, Verb, is_input, read_parts, read_times, read_value,
};
use crate::words::{are_plain, number};
use fourstate::{GateKind, NetKind};

/// Of which kind a word of a line is.
#[derive(Clone, Copy, Debug, PartialEq, Eq)]
pub enum WordKind {
    /// Any word.
    Name,
    /// Decimal digits.
    Number,
    /// A fall, with or without a turn-off delay.
    Fall,
    /// The symbol of a value.
    Value,
    /// The keyword of a kind of nets.
    NetKind,
    /// The keyword of a kind of gates.
    GateKind,
    /// What a gate reads; behind it may stand another.
    Input,
    /// Into how many parts a window is cut.
    Parts,
}

impl WordKind {
    /// Whether a word is of the kind.
    pub fn fits(self, word: &[u8]) -> bool
        ensures { result ≡ is_of_kind self word.now }
    {
        match self {
            WordKind::Name => are_plain(word),
            WordKind::Number => number(word).is_some(),
            WordKind::Fall => read_times(0, word).is_some(),
            WordKind::Value => read_value(word).is_some(),
            WordKind::NetKind => NetKind::from_keyword(word).is_some(),
            WordKind::GateKind => GateKind::from_keyword(word).is_some(),
            WordKind::Input => are_plain(word) && is_input(word),
            WordKind::Parts => read_parts(word).is_some(),
        }
    }
}

/// The kinds of the words behind the first one of a command; of `at` none.
pub fn verb_kinds(verb: Verb) -> &'static [WordKind]
    ensures { result.now ≡ verb_kinds verb }
{
    match verb {
        Verb::Edit(verb) => edit_kinds(verb),
        Verb::Ask(verb) => ask_kinds(verb),
        Verb::Hold | Verb::Free => &[WordKind::Name],
        _ => &[],
    }
}

/// The kinds of the words behind the first one of a question; none of any other verb.
pub fn question_kinds(verb: Verb) -> Option<&'static [WordKind]>
    ensures { option_copied result ≡ question_kinds verb }
{
    match verb {
        Verb::Ask(verb) => Some(ask_kinds(verb)),
        _ => None,
    }
}

fn edit_kinds(verb: EditVerb) -> &'static [WordKind]
    ensures { result.now ≡ edit_kinds verb }
{
    match verb {
        EditVerb::Net | EditVerb::Kind => &[WordKind::Name, WordKind::NetKind],
        EditVerb::Input | EditVerb::DropNet | EditVerb::Drop => &[WordKind::Name],
        EditVerb::Gate => &[
            WordKind::Name,
            WordKind::GateKind,
            WordKind::Number,
            WordKind::Fall,
            WordKind::Name,
            WordKind::Input,
        ],
        EditVerb::Delay => &[WordKind::Name, WordKind::Number, WordKind::Fall],
        EditVerb::Type => &[WordKind::Name, WordKind::GateKind],
        EditVerb::Wire => &[WordKind::Name, WordKind::Name, WordKind::Input],
        EditVerb::Stim => &[WordKind::Name, WordKind::Number, WordKind::Value],
        EditVerb::Unstim => &[WordKind::Name, WordKind::Number],
        EditVerb::Horizon => &[WordKind::Number],
    }
}

fn ask_kinds(verb: AskVerb) -> &'static [WordKind]
    ensures { result.now ≡ ask_kinds verb }
{
    match verb {
        AskVerb::Value | AskVerb::Next | AskVerb::Prev => &[WordKind::Name, WordKind::Number],
        AskVerb::Wave => &[WordKind::Name],
        AskVerb::Seek => &[WordKind::Name, WordKind::Number, WordKind::Value],
        AskVerb::Vcd => &[],
    }
}

/// The kinds of the words behind the first one of a question of tools.
pub fn tool_kinds(verb: ToolVerb) -> &'static [WordKind]
    ensures { result.now ≡ tool_kinds verb }
{
    match verb {
        ToolVerb::Nets | ToolVerb::Inputs | ToolVerb::Gates => &[],
        ToolVerb::Gate
        | ToolVerb::Drivers
        | ToolVerb::Readers
        | ToolVerb::Points
        | ToolVerb::Diff => &[WordKind::Name],
        ToolVerb::Why | ToolVerb::Reach => &[WordKind::Name, WordKind::Number],
        ToolVerb::Window => &[
            WordKind::Name,
            WordKind::Number,
            WordKind::Number,
            WordKind::Parts,
        ],
    }
}
