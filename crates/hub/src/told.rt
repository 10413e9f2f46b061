//! How many commits each editor was told of. It is counted for proofs alone: an editor has the whole share of its ledger, whose book
//! is its desk's, so the desk knows that it told no more than what is published.

ghost use Rattle.std.specs.Prelude.{◌≡◌};

use crate::name::HubName;
use std::marker::PhantomData;
use std::sync::ledger::{Blank, Book, Ledger, Share};

/// The ledger of what editor 0 was told.
pub struct FirstTold<J: HubName> {
    name: PhantomData<J>,
}

impl<J: HubName> Ledger for FirstTold<J> {
    ghost name = { J.book.first_told };

    ghost parts = { 1 };
}

/// The ledger of what editor 1 was told.
pub struct SecondTold<J: HubName> {
    name: PhantomData<J>,
}

impl<J: HubName> Ledger for SecondTold<J> {
    ghost name = { J.book.second_told };

    ghost parts = { 1 };
}

/// How many commits both editors were told of.
#[derive(Drop)]
pub struct ToldBooks<J: HubName> {
    pub(crate) first: Book<FirstTold<J>>,
    pub(crate) second: Book<SecondTold<J>>,
}

/// The shares of both editors.
#[derive(Drop)]
pub struct ToldShares<J: HubName> {
    pub(crate) first: Share<FirstTold<J>>,
    pub(crate) second: Share<SecondTold<J>>,
}

impl<J: HubName> ToldShares<J> {
    /// The share of each editor apart, with an empty one of the other.
    pub(crate) fn apart(self) -> (ToldShares<J>, ToldShares<J>)
        ensures first { (result.0.first.parts ≡ self.first.parts) × (result.0.first.amount ≡ self.first.amount) }
        ensures second { (result.1.second.parts ≡ self.second.parts) × (result.1.second.amount ≡ self.second.amount) }
    {
        let ToldShares {
            mut first,
            mut second,
        } = self;
        let (no_first, no_second) = (first.empty(), second.empty());
        let one = ToldShares {
            first,
            second: no_second,
        };
        let other = ToldShares {
            first: no_first,
            second,
        };
        (one, other)
    }
}

/// Nothing was told yet.
pub(crate) fn books_of<J: HubName>(first: Blank, second: Blank) -> (ToldBooks<J>, ToldShares<J>)
    requires first { (first.name ≡ J.book.first_told) × (first.parts ≡ 1) }
    requires second { (second.name ≡ J.book.second_told) × (second.parts ≡ 1) }
    ensures books { (result.0.first.total ≡ 0) × (result.0.second.total ≡ 0) }
    ensures first { (result.1.first.parts ≡ 1) × (result.1.first.amount ≡ 0) }
    ensures second { (result.1.second.parts ≡ 1) × (result.1.second.amount ≡ 0) }
{
    let (first, first_share) = first.open::<FirstTold<J>>();
    let (second, second_share) = second.open::<SecondTold<J>>();
    let books = ToldBooks { first, second };
    let shares = ToldShares {
        first: first_share,
        second: second_share,
    };
    (books, shares)
}
