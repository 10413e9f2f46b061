//! The history of a hub, which is its accepted commits. It exists for proofs alone: of it only a number is in memory, how many
//! commits there are.

ghost use Rattle.std.specs.Prelude.{◌≡◌, ◌↔◌, ◌⊎◌, ◌+◌, ◌<◌, ◌≤◌, ◌^◌, ◌++◌, ◌∷◌, [], IsTrue, length, MatchBool};
ghost use Rattle.std.specs.Bool.{OnTrue};
ghost use Rattle.hubcore.specs.Lists.{StartsWith};
ghost use Rattle.hub.specs.kept.Histories.{count_word};

use crate::entry::Entry;
use crate::name::HubName;
use logbook::{Gain, Offer, Plain, Play, Rule, Seen, Start, Word};
use std::marker::{Model, PhantomData};

/// The rule of the book: its word is the number of the commits.
pub struct Counted;

impl Rule<Entry, u64> for Counted {
    ghost use Rattle.std.specs.Prelude.{[]};
    ghost use base.Fml.{ftrue};
    ghost use Rattle.hub.specs.kept.Histories.{IsCounted};

    ghost holds = { λ cells log. IsCounted cells log };

    ghost first = { [] };

    ghost hinted = { λ number log. Unit {0} };

    ghost shows = { λ log. [] };

    ghost keeps = { λ names log. ftrue };

    ghost moves = { λ ask before after answer. Unit {0} };
}

/// Who adds a commit gains nothing else.
pub struct NoGain;

impl Gain<Entry, u64> for NoGain {
    ghost use base.Fml.{ftrue};

    ghost after = { λ names about answer. ftrue };
}

/// The step that adds a commit.
pub struct Adding;

impl Play<Entry, u64> for Adding {
    ghost use Rattle.hub.specs.kept.Histories.{Adds};

    ghost then = { Adds };
}

impl Plain<Entry, Entry, u64> for Adding {
    ghost use Rattle.std.specs.Prelude.{None};

    ghost ask = { λ entry. entry };

    ghost state = { λ entry. None };
}

/// Commits that the history has reached. It takes no bytes.
pub type Reached = Seen<Entry, u64, Counted>;

/// How many commits the history has.
pub type Count = Word<Entry, u64, Counted>;

/// A history without commits, of a hub that has no name yet.
#[derive(Drop)]
pub struct NewHistory {
    count: Count,
    pub(crate) reached: Reached,
    pub ghost empty: { reached.log ≡ [] },
    pub ghost count_is: { count ≡ count_word reached.book },
}

impl NewHistory {
    pub(crate) fn new() -> NewHistory {
        let (reached, mut first, _second) = Reached::open(Start::alone(), 0, 0);
        NewHistory {
            count: Word::tracked(0, &mut first),
            reached,
        }
    }

    /// The same under a name.
    pub(crate) fn named<J: HubName>(self) -> History<J>
        requires { self.reached.book ≡ J.book.history }
        ensures { result ≡ [] }
    {
        let NewHistory { count, reached } = self;
        History {
            count,
            all: Beginning {
                len: 0,
                reached,
                name: PhantomData,
            },
        }
    }
}

/// A beginning of the history of a hub. Contracts see it as the list of its commits; in memory it is their number.
#[derive(Drop)]
pub struct Beginning<J: HubName> {
    len: u64,
    reached: Reached,
    name: PhantomData<J>,
}

impl<J: HubName> Model for Beginning<J> {
    ghost use Rattle.std.specs.Prelude.{◌≡◌, List, length};
    ghost use Rattle.hubcore.specs.Lists.{EntryRecord};

    ghost Value = { List EntryRecord };

    ghost view = { λ b. b.reached.log };

    ghost invariant = { λ b. (b.len ≡ length b.reached.log) × (b.reached.book ≡ J.book.history) };
}

impl<J: HubName> Beginning<J> {
    /// So many commits, which the history has reached.
    pub(crate) fn of(len: u64, reached: &Reached) -> Beginning<J>
        requires { (len ≡ length reached.now.log) × (reached.now.book ≡ J.book.history) }
        ensures { result ≡ reached.now.log }
    {
        Beginning {
            len,
            reached: reached.again(),
            name: PhantomData,
        }
    }

    /// How many commits it has.
    pub(crate) fn len(&self) -> u64
        ensures { result ≡ length self.now }
    {
        self.len
    }

    /// Whether it is all of a log that begins with it.
    #[tactic(auto, using(crate::proofs::Beginnings::as_long))]
    pub(crate) fn is_all(&self, log: &Vec<Entry>) -> bool
        requires { StartsWith log.now.items self.now }
        ensures { IsTrue result ↔ (self.now ≡ log.now.items) }
    {
        self.len == log.len() as u64
    }

    /// Its commits, as the history has reached them.
    pub(crate) fn reached(&self) -> &Reached
        ensures { (result.now.log ≡ self.now) × (result.now.book ≡ J.book.history) }
    {
        &self.reached
    }

    /// A copy.
    pub(crate) fn again(&self) -> Beginning<J>
        ensures { result ≡ self.now }
    {
        Beginning {
            len: self.len,
            reached: self.reached.again(),
            name: PhantomData,
        }
    }

    /// Whether it begins with another one. If not, the other one is longer and begins with it, since both are beginnings of one
    /// history.
    pub(crate) fn reaches(&self, other: &Beginning<J>) -> bool
        ensures { MatchBool result (StartsWith self.now other.now) (StartsWith other.now self.now × (length self.now < length other.now)) }
    {
        let mut both = self.reached.again();
        both.learn(&other.reached);
        other.len <= self.len
    }

    /// It begins with another one that is no longer.
    #[tactic(auto, using(crate::proofs::Beginnings::as_reached))]
    pub(crate) fn begins_with(&self, other: &Beginning<J>)
        requires { length other.now ≤ length self.now }
        ensures { StartsWith self.now other.now }
    {
        let _reaches = self.reaches(other);
    }

    // Adds a commit behind all that was reached, and says whether it did; it did not where the history has more commits.
    fn add(&mut self, count: &Count, entry: &Entry) -> bool
        requires count { count.now ≡ count_word J.book.history }
        requires room { length self.old + 1 < 2 ^ 64 }
        ensures { OnTrue result (self.new ≡ self.old ++ entry.now ∷ []) }
    {
        let mut offer: Offer<Entry, u64, Counted, NoGain> = self
            .reached
            .plain::<NoGain, Entry, Adding>(entry);
        let mut pen = self.reached.no_pen();
        let len = self.len;
        let found = count.compare_exchange::<Adding, NoGain>(
            len,
            len + 1,
            &mut self.reached,
            &mut offer,
            &mut pen,
        );
        self.len = if found == len { len + 1 } else { found };
        found == len
    }
}

/// The history of a hub, as its desk has it. Contracts see it as the list of its commits.
#[derive(Drop)]
pub struct History<J: HubName> {
    count: Count,
    all: Beginning<J>,
}

impl<J: HubName> Model for History<J> {
    ghost use Rattle.std.specs.Prelude.{◌≡◌, List};
    ghost use Rattle.hubcore.specs.Lists.{EntryRecord};
    ghost use Rattle.hub.specs.kept.Histories.{count_word};

    ghost Value = { List EntryRecord };

    ghost view = { λ h. h.all };

    ghost invariant = { λ h. h.count ≡ count_word J.book.history };
}

impl<J: HubName> History<J> {
    /// All of it.
    pub(crate) fn all(&self) -> &Beginning<J>
        ensures { result.now ≡ self.now }
    {
        &self.all
    }

    // Adds a commit, or nothing.
    fn add(&mut self, entry: &Entry)
        requires { length self.old + 1 < 2 ^ 64 }
        ensures { (self.new ≡ self.old ++ entry.now ∷ []) ⊎ (self.new ≡ self.old) }
    {
        let mut all = self.all.again();
        if all.add(&self.count, entry) {
            self.all = all;
        }
    }

    /// Adds the commit that comes next in the log of a desk. A history that is shorter than the log stays as it is.
    pub(crate) fn follow(&mut self, log: &Vec<Entry>, entry: &Entry)
        requires begins { StartsWith log.now.items self.old }
        requires room { length log.now.items + 1 < 2 ^ 64 }
        ensures begins { StartsWith (log.now.items ++ entry.now ∷ []) self.new }
        ensures grows { StartsWith self.new self.old }
    {
        if self.all.len() == log.len() as u64 {
            self.add(entry);
        }
    }
}
