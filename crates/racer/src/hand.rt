//! The commits of an editor.

ghost use Rattle.std.specs.Prelude.{◌≡◌, length};
ghost use Rattle.racer.specs.Submits.{hand_of};

use crate::commit::Commit;
use std::marker::Model;

/// The number of an editor, and the commits that it has to submit, in order.
#[derive(Drop)]
pub struct Hand {
    number: u32,
    commits: Vec<Commit>,
}

impl Model for Hand {
    ghost use Rattle.racer.specs.Submits.{HandRecord, hand_of};

    ghost Value = { HandRecord };

    ghost view = { λ h. hand_of h.number h.commits.items };
}

impl Hand {
    /// The hand of the editor of this number.
    pub fn of(number: u32, commits: Vec<Commit>) -> Hand
        ensures { result ≡ hand_of number commits.items }
    {
        Hand { number, commits }
    }

    /// How many commits there are.
    pub fn count(&self) -> usize
        ensures { result ≡ length self.now.commits }
    {
        self.commits.len()
    }

    /// The commits.
    pub fn commits(&self) -> &[Commit]
        ensures { result.now ≡ self.now.commits }
    {
        self.commits.as_slice()
    }
}
