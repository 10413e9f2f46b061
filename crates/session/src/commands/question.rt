//! Questions about a run.

ghost use Rattle.std.specs.Prelude.{◌≡◌};
ghost use Rattle.session.specs.Questions.{is_past};

use crate::words::WordRef;
use fourstate::Value;

/// What is asked about a wave. Moments are in time units.
#[derive(Clone, Copy, Debug, PartialEq, Eq)]
pub enum Query {
    /// The value at a moment.
    Value(u64),
    /// All changes.
    Wave,
    /// The first change after a moment.
    Next(u64),
    /// The last change before a moment.
    Prev(u64),
    /// The first change after a moment to this value.
    Seek(u64, Value),
    /// The value at the first moment, and the changes after it up to the second one.
    Window(u64, u64),
    /// The moments after the first one up to the second one, cut into so many parts: of each part what changes in it.
    Parts(u64, u64, u64),
}

impl Query {
    /// Whether it is about a moment after `horizon`, or its moments are in no order.
    pub fn is_past(self, horizon: u64) -> bool
        ensures { result ≡ is_past horizon self }
    {
        match self {
            Query::Wave => false,
            Query::Value(time) | Query::Next(time) | Query::Prev(time) | Query::Seek(time, _) => {
                time > horizon
            }
            Query::Window(from, to) | Query::Parts(from, to, _) => to > horizon || from > to,
        }
    }
}

/// A question about a run. It borrows its words from its line.
#[derive(Drop)]
pub enum Question<'a> {
    /// About one wave.
    Net(NetQuestion<'a>),
    /// The whole run, as a value change dump.
    Vcd,
    /// What a design has.
    Listing(Listing<'a>),
    /// What made a change.
    Why(ChangeName<'a>),
    /// What a change made change next.
    Reach(ChangeName<'a>),
    /// What differs from the snapshot that is held under the name.
    Diff(WordRef<'a>),
}

/// The change of the net of this name at a moment, if it changes there.
#[derive(Drop)]
pub struct ChangeName<'a> {
    /// The name of the net.
    pub net: WordRef<'a>,
    /// The moment, in time units.
    pub time: u64,
}

/// A question about what a design has. Each thing is named by the word of its line.
#[derive(Drop)]
pub enum Listing<'a> {
    /// All nets.
    Nets,
    /// The inputs.
    Inputs,
    /// All gates.
    Gates,
    /// One gate.
    Gate(WordRef<'a>),
    /// The gates that drive a net.
    Drivers(WordRef<'a>),
    /// The gates that read a net.
    Readers(WordRef<'a>),
    /// The stimulus of an input.
    Points(WordRef<'a>),
}

/// A question about the wave of the net of this name.
#[derive(Drop)]
pub struct NetQuestion<'a> {
    /// The name of the net.
    pub net: WordRef<'a>,
    /// What is asked.
    pub query: Query,
}
