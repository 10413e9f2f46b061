//! The first word of a command.

ghost use Rattle.std.specs.Prelude.{◌≡◌};
ghost use Rattle.session.specs.Verbs.{ask_word, edit_word, verb_of, verb_word};

/// What a command's first word asks for.
#[derive(Clone, Copy, Debug, PartialEq, Eq)]
pub enum Verb {
    /// A change of the design.
    Edit(EditVerb),
    /// The beginning of a batch.
    Begin,
    /// The commit of a batch.
    Commit,
    /// The end of a batch without a commit.
    Abort,
    /// An answer about a run.
    Ask(AskVerb),
    /// A name for the present snapshot.
    Hold,
    /// The end of such a name.
    Free,
    /// An answer about a held snapshot.
    At,
    /// The end of the session.
    Quit,
}

/// Which change of the design.
#[derive(Clone, Copy, Debug, PartialEq, Eq)]
pub enum EditVerb {
    Net,
    Input,
    DropNet,
    Kind,
    Gate,
    Drop,
    Delay,
    Type,
    Wire,
    Stim,
    Unstim,
    Horizon,
}

/// Which answer about a run.
#[derive(Clone, Copy, Debug, PartialEq, Eq)]
pub enum AskVerb {
    Value,
    Wave,
    Next,
    Prev,
    Seek,
    Vcd,
}

impl EditVerb {
    fn keyword(self) -> &'static str
        ensures { result.now ≡ edit_word self }
    {
        match self {
            EditVerb::Net => "net",
            EditVerb::Input => "input",
            EditVerb::DropNet => "dropnet",
            EditVerb::Kind => "kind",
            EditVerb::Gate => "gate",
            EditVerb::Drop => "drop",
            EditVerb::Delay => "delay",
            EditVerb::Type => "type",
            EditVerb::Wire => "wire",
            EditVerb::Stim => "stim",
            EditVerb::Unstim => "unstim",
            EditVerb::Horizon => "horizon",
        }
    }
}

impl AskVerb {
    fn keyword(self) -> &'static str
        ensures { result.now ≡ ask_word self }
    {
        match self {
            AskVerb::Value => "value",
            AskVerb::Wave => "wave",
            AskVerb::Next => "next",
            AskVerb::Prev => "prev",
            AskVerb::Seek => "seek",
            AskVerb::Vcd => "vcd",
        }
    }
}

impl Verb {
    const ALL: [Verb; 25] = [
        Verb::Edit(EditVerb::Net),
        Verb::Edit(EditVerb::Input),
        Verb::Edit(EditVerb::DropNet),
        Verb::Edit(EditVerb::Kind),
        Verb::Edit(EditVerb::Gate),
        Verb::Edit(EditVerb::Drop),
        Verb::Edit(EditVerb::Delay),
        Verb::Edit(EditVerb::Type),
        Verb::Edit(EditVerb::Wire),
        Verb::Edit(EditVerb::Stim),
        Verb::Edit(EditVerb::Unstim),
        Verb::Edit(EditVerb::Horizon),
        Verb::Begin,
        Verb::Commit,
        Verb::Abort,
        Verb::Ask(AskVerb::Value),
        Verb::Ask(AskVerb::Wave),
        Verb::Ask(AskVerb::Next),
        Verb::Ask(AskVerb::Prev),
        Verb::Ask(AskVerb::Seek),
        Verb::Ask(AskVerb::Vcd),
        Verb::Hold,
        Verb::Free,
        Verb::At,
        Verb::Quit,
    ];

    fn keyword(self) -> &'static str
        ensures { result.now ≡ verb_word self }
    {
        match self {
            Verb::Edit(verb) => verb.keyword(),
            Verb::Begin => "begin",
            Verb::Commit => "commit",
            Verb::Abort => "abort",
            Verb::Ask(verb) => verb.keyword(),
            Verb::Hold => "hold",
            Verb::Free => "free",
            Verb::At => "at",
            Verb::Quit => "quit",
        }
    }

    /// The verb that a word writes; none of any other word.
    pub fn from_keyword(word: &[u8]) -> Option<Verb>
        ensures { result ≡ verb_of word.now }
    {
        Verb::ALL
            .iter()
            .copied()
            .find(|verb| verb.keyword().as_bytes() == word)
    }
}
