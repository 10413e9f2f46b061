//! Who commits.

ghost use Rattle.std.specs.Prelude.{◌≡◌, ◌+◌, ◌<◌, ◌≤◌, ◌^◌, [], length};
ghost use Rattle.hubcore.specs.Lists.{StartsWith};
ghost use Rattle.hub.specs.Desks.{editor_of};
ghost use Rattle.hub.specs.kept.Desks.{of_number};

use crate::history::Beginning;
use crate::name::HubName;
use crate::told::{ToldBooks, ToldShares};
use std::marker::Model;
use std::sync::ledger::{Book, Ledger, Share};

/// An editor of a hub, by its number, 0 or 1, the count of its accepted commits, and the commits of which its last receipt told. It
/// holds the whole share of its own ledger, whose book the desk has, so the count is that of the desk's log. Another ledger counts
/// what it was told in the same way.
#[derive(Drop)]
pub struct Editor<J: HubName, L: Ledger, M: Ledger> {
    number: u32,
    count: u64,
    first: Share<L>,
    second: Share<M>,
    told: Beginning<J>,
    shares: ToldShares<J>,
}

impl<J: HubName, L: Ledger, M: Ledger> Model for Editor<J, L, M> {
    ghost use Rattle.std.specs.Prelude.{◌≡◌, ◌<◌, length};
    ghost use Rattle.hub.specs.Desks.{EditorRecord, editor_of};
    ghost use Rattle.hub.specs.kept.Desks.{Owns};

    ghost Value = { EditorRecord };

    ghost view = { λ e. editor_of e.number e.count e.told };

    ghost invariant = { λ e. (e.number < 2) × (e.number ≡ 0 → Owns L.parts e.first.parts e.first.amount e.count)
        × (e.number ≡ 1 → Owns M.parts e.second.parts e.second.amount e.count)
        × (e.number ≡ 0 → Owns 1 e.shares.first.parts e.shares.first.amount (length e.told))
        × (e.number ≡ 1 → Owns 1 e.shares.second.parts e.shares.second.amount (length e.told)) };
}

impl<J: HubName, L: Ledger, M: Ledger> Editor<J, L, M> {
    // An editor without commits, that was told nothing.
    pub(crate) fn new(
        number: u32,
        first: Share<L>,
        second: Share<M>,
        shares: ToldShares<J>,
        none: &Beginning<J>,
    ) -> Editor<J, L, M>
        requires number { number < 2 }
        requires first { number ≡ 0 → (first.parts ≡ L.parts) × (first.amount ≡ 0) × (0 < L.parts) }
        requires second { number ≡ 1 → (second.parts ≡ M.parts) × (second.amount ≡ 0) × (0 < M.parts) }
        requires first_told { number ≡ 0 → (shares.first.parts ≡ 1) × (shares.first.amount ≡ 0) }
        requires second_told { number ≡ 1 → (shares.second.parts ≡ 1) × (shares.second.amount ≡ 0) }
        requires none { none.now ≡ [] }
        ensures { result ≡ editor_of number 0 [] }
    {
        Editor {
            number,
            count: 0,
            first,
            second,
            told: none.again(),
            shares,
        }
    }

    // The two editors of a hub, each with its shares.
    pub(crate) fn both(
        first: Share<L>,
        second: Share<M>,
        shares: ToldShares<J>,
        none: &Beginning<J>,
    ) -> (Editor<J, L, M>, Editor<J, L, M>)
        requires first { (first.parts ≡ L.parts) × (first.amount ≡ 0) × (0 < L.parts) }
        requires second { (second.parts ≡ M.parts) × (second.amount ≡ 0) × (0 < M.parts) }
        requires first_told { (shares.first.parts ≡ 1) × (shares.first.amount ≡ 0) }
        requires second_told { (shares.second.parts ≡ 1) × (shares.second.amount ≡ 0) }
        requires none { none.now ≡ [] }
        ensures { (result.0 ≡ editor_of 0 0 []) × (result.1 ≡ editor_of 1 0 []) }
    {
        let (mut first, mut second) = (first, second);
        let (no_first, no_second) = (first.empty(), second.empty());
        let (one, other) = shares.apart();
        (
            Editor::new(0, first, no_second, one, none),
            Editor::new(1, no_first, second, other, none),
        )
    }

    /// How many of its commits were accepted.
    pub fn count(&self) -> u64
        ensures { result ≡ self.now.count }
    {
        self.count
    }

    /// Of how many commits its last receipt told: of so many of the log, from the first one on.
    pub fn told_count(&self) -> u64
        ensures { result ≡ length self.now.told }
    {
        self.told.len()
    }

    /// Its number, which its commits bear in the log.
    pub fn number(&self) -> u32
        ensures number { result ≡ self.now.number }
        ensures low { result < 2 }
    {
        self.number
    }

    // Its count is the total of its ledger.
    pub(crate) fn audit(&mut self, first: &mut Book<L>, second: &mut Book<M>)
        ensures same { self.new ≡ self.old }
        ensures low { self.old.number < 2 }
        ensures books { (first.new.total ≡ first.old.total) × (second.new.total ≡ second.old.total) }
        ensures count { self.old.count ≡ of_number self.old.number first.old.total second.old.total }
    {
        if self.number == 0 {
            first.audit(&mut self.first);
        } else {
            second.audit(&mut self.second);
        }
    }

    // One more of its commits was accepted.
    pub(crate) fn add(&mut self, first: &mut Book<L>, second: &mut Book<M>)
        requires { self.old.count + 1 < 2 ^ 64 }
        ensures editor { self.new ≡ editor_of self.old.number (self.old.count + 1) self.old.told }
        ensures first { first.new.total ≡ first.old.total + of_number self.old.number 1 0 }
        ensures second { second.new.total ≡ second.old.total + of_number self.old.number 0 1 }
    {
        if self.number == 0 {
            first.add(&mut self.first, 1);
        } else {
            second.add(&mut self.second, 1);
        }
        self.count += 1;
    }
    // It was told of as many commits as its desk knows of.
    pub(crate) fn audit_told(&mut self, books: &mut ToldBooks<J>)
        ensures same { self.new ≡ self.old }
        ensures low { self.old.number < 2 }
        ensures books { (books.new.first.total ≡ books.old.first.total) × (books.new.second.total ≡ books.old.second.total) }
        ensures length { length self.old.told ≡ of_number self.old.number books.old.first.total books.old.second.total }
    {
        if self.number == 0 {
            books.first.audit(&mut self.shares.first);
        } else {
            books.second.audit(&mut self.shares.second);
        }
    }

    // A receipt tells of these commits, which go on from those that the last one told of.
    pub(crate) fn learn(&mut self, books: &mut ToldBooks<J>, commits: &Beginning<J>)
        requires first { books.old.first.total ≤ length commits.now }
        requires second { books.old.second.total ≤ length commits.now }
        ensures editor { self.new ≡ editor_of self.old.number self.old.count commits.now }
        ensures begins { StartsWith commits.now self.old.told }
        ensures first { books.new.first.total ≤ length commits.now }
        ensures second { books.new.second.total ≤ length commits.now }
    {
        self.audit_told(books);
        commits.begins_with(&self.told);
        let more = commits.len() - self.told.len();
        if self.number == 0 {
            books.first.add(&mut self.shares.first, more);
        } else {
            books.second.add(&mut self.shares.second, more);
        }
        self.told = commits.again();
    }

    // The commits of which its last receipt told.
    pub(crate) fn last_told(&self) -> &Beginning<J>
        ensures { result.now ≡ self.now.told }
    {
        &self.told
    }
}
