//! The first word of a question that tools ask.

ghost use Rattle.std.specs.Prelude.{◌≡◌};
ghost use Rattle.session.specs.ToolVerbs.{tool_verb_of, tool_word};

/// What the first word of a question that tools ask asks for.
#[derive(Clone, Copy, Debug, PartialEq, Eq)]
pub enum ToolVerb {
    Nets,
    Inputs,
    Gates,
    Gate,
    Drivers,
    Readers,
    Points,
    Window,
    Why,
    Reach,
    Diff,
}

impl ToolVerb {
    const ALL: [ToolVerb; 11] = [
        ToolVerb::Nets,
        ToolVerb::Inputs,
        ToolVerb::Gates,
        ToolVerb::Gate,
        ToolVerb::Drivers,
        ToolVerb::Readers,
        ToolVerb::Points,
        ToolVerb::Window,
        ToolVerb::Why,
        ToolVerb::Reach,
        ToolVerb::Diff,
    ];

    fn keyword(self) -> &'static str
        ensures { result.now ≡ tool_word self }
    {
        match self {
            ToolVerb::Nets => "nets",
            ToolVerb::Inputs => "inputs",
            ToolVerb::Gates => "gates",
            ToolVerb::Gate => "gate",
            ToolVerb::Drivers => "drivers",
            ToolVerb::Readers => "readers",
            ToolVerb::Points => "points",
            ToolVerb::Window => "window",
            ToolVerb::Why => "why",
            ToolVerb::Reach => "reach",
            ToolVerb::Diff => "diff",
        }
    }

    /// The verb that a word writes; none of any other word.
    pub fn from_keyword(word: &[u8]) -> Option<ToolVerb>
        ensures { result ≡ tool_verb_of word.now }
    {
        ToolVerb::ALL
            .iter()
            .copied()
            .find(|verb| verb.keyword().as_bytes() == word)
    }
}
