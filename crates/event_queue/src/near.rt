//! Numbers that are noted for the next moments, of which the first one is known.

ghost use Rattle.std.specs.Prelude.{◌≡◌, ◌≢◌, ◌<◌, [], ℕ, Some, IfSome, IfNone, IfOk, OnErr, true, false, min, unwrap_or};
ghost use Rattle.event_queue.specs.kept.Noted.{AreSame, IsAdded, IsTaken, noted};

use crate::row::Row;
use std::alloc::{AllocError, Global};
use std::marker::Model;

/// Numbers that are noted for the next moments, in the order in which they were noted. Other moments have none.
#[derive(Drop)]
pub(crate) struct NearMoments {
    row: Row,
    // The first moment that has a number.
    first: Option<u64>,
}

impl Model for NearMoments {
    ghost use Rattle.std.specs.Prelude.{ℕ, List};
    ghost use Rattle.event_queue.specs.kept.Lists.{IsFirst};

    ghost Value = { List (ℕ × List ℕ) };

    ghost view = { λ a. a.row };

    ghost invariant = { λ a. IsFirst a.row a.first };
}

impl NearMoments {
    /// No moment with a number.
    pub(crate) fn new(alloc: Global) -> NearMoments
        ensures { (t : ℕ) → noted result t ≡ [] }
    {
        NearMoments {
            row: Row::new(alloc),
            first: None,
        }
    }

    /// Makes the lists, if they are not there. It fails where memory runs out. Either way the same numbers are noted.
    pub(crate) fn make_lists(&mut self, alloc: Global) -> Result<(), AllocError>
        ensures { AreSame self.old self.new }
    {
        self.row.make_lists(alloc)
    }

    /// Notes a number for the moment `t`, if it is one of the next. It fails where memory runs out, and then nothing has
    /// changed.
    #[inline(always)]
    pub(crate) fn add(&mut self, t: u64, number: usize) -> Result<bool, AllocError>
        ensures near { IfOk result (λ is_near. is_near ≡ true → IsAdded t number self.old self.new) }
        ensures same { IfOk result (λ is_near. is_near ≡ false → AreSame self.old self.new) }
        ensures far { IfOk result (λ is_near. is_near ≡ false → noted self.new t ≡ []) }
        ensures err { OnErr result (AreSame self.old self.new) }
    {
        if !self.row.add(t, number)? {
            return Ok(false);
        }
        add_moment(&mut self.first, t);
        Ok(true)
    }

    /// The first moment for which a number is noted.
    pub(crate) fn first(&self) -> Option<u64>
        ensures noted { IfSome result (λ t. noted self.now t ≢ []) }
        ensures least { IfSome result (λ t. (u : ℕ) → u < t → noted self.now u ≡ []) }
        ensures none { IfNone result ((u : ℕ) → noted self.now u ≡ []) }
    {
        self.first
    }

    /// The numbers that are noted for the moment `t`.
    pub(crate) fn numbers(&self, t: u64) -> &[usize]
        ensures { result.now ≡ noted self.now t }
    {
        self.row.numbers(t)
    }

    /// Takes the numbers of the moment `t` away. The next moments are then those from `t` on, or from the first one before it
    /// that has a number.
    pub(crate) fn clear(&mut self, t: u64)
        ensures { IsTaken t self.old self.new }
    {
        self.empty(t);
        self.move_on(t);
    }

    /// Moves the numbers of the moment `t` into an empty list. The next moments are then those that they are after `clear`.
    pub(crate) fn exchange(&mut self, t: u64, out: &mut Vec<usize>)
        requires { out.old.items ≡ [] }
        ensures numbers { out.new.items ≡ noted self.old t }
        ensures rest { IsTaken t self.old self.new }
    {
        self.exchange_list(t, out);
        self.move_on(t);
    }

    fn exchange_list(&mut self, t: u64, out: &mut Vec<usize>)
        requires { out.old.items ≡ [] }
        ensures numbers { out.new.items ≡ noted self.old t }
        ensures rest { IsTaken t self.old self.new }
    {
        let Some(first) = self.first else {
            return;
        };
        if t < first {
            return;
        }
        self.row.exchange(t, out);
        self.first = self.row.first();
    }

    fn empty(&mut self, t: u64)
        ensures { IsTaken t self.old self.new }
    {
        let Some(first) = self.first else {
            return;
        };
        if t < first {
            return;
        }
        self.row.empty(t);
        self.first = self.row.first();
    }

    fn move_on(&mut self, t: u64)
        ensures { AreSame self.old self.new }
    {
        let Some(first) = self.first else {
            return self.row.start_at(t);
        };
        self.row.move_on(first.min(t));
    }
}

// Lets `first` be the first moment where `t` is one of them too.
#[inline(always)]
fn add_moment(first: &mut Option<u64>, t: u64)
    ensures { first.new ≡ Some (min (unwrap_or first.old t) t) }
{
    if let Some(known) = *first {
        if known <= t {
            return;
        }
    }
    *first = Some(t);
}
