//! Numbers that are noted for the next moments, each with a list at its place.

ghost use Rattle.std.specs.Prelude.{◌≡◌, ◌≢◌, ◌<◌, ◌≤◌, ◌+◌, ◌↔◌, [], ℕ, IfSome, IfNone, IfOk, OnErr, IsTrue, true, false, length, All};
ghost use Rattle.event_queue.specs.kept.Noted.{AreSame, IsAdded, IsTaken, noted};
ghost use Rattle.event_queue.specs.declared.row.TheConstants.{COUNT, LAST};

use std::alloc::{AllocError, Global};
use std::marker::Model;
use std::mem::swap;

// How many moments have a list.
const COUNT: u64 = 64;

// The last moment that can be the first one with a list: those that follow it are numbers too.
const LAST: u64 = u64::MAX - COUNT;

/// Numbers that are noted for the next moments, in the order in which they were noted. Other moments have none.
#[derive(Drop)]
pub(crate) struct Row {
    // The first moment that has a list.
    from: u64,
    // The numbers of a moment that has a list, at its remainder by `COUNT`. The lists are not there before a number comes.
    lists: Vec<Vec<usize>>,
}

impl Model for Row {
    ghost use Rattle.std.specs.Prelude.{ℕ, List, ◌≡◌, ◌<◌, ◌≤◌, length, map};
    ghost use Rattle.event_queue.specs.kept.Lists.{in_ring};
    ghost use Rattle.event_queue.specs.declared.row.TheConstants.{COUNT, LAST};

    ghost Value = { List (ℕ × List ℕ) };

    ghost view = { λ a. in_ring COUNT a.from (map (λ list. list.items) a.lists.items) };

    ghost invariant = { λ a. record { early : a.from ≤ LAST; full : 0 < length a.lists.items → length a.lists.items ≡ COUNT } };
}

impl Row {
    /// No moment with a number.
    pub(crate) fn new(alloc: Global) -> Row
        ensures { (t : ℕ) → noted result t ≡ [] }
    {
        Row {
            from: 0,
            lists: Vec::new(alloc),
        }
    }

    /// Makes the lists, if they are not there. It fails where memory runs out. Either way the same numbers are noted.
    pub(crate) fn make_lists(&mut self, alloc: Global) -> Result<(), AllocError>
        ensures { AreSame self.old self.new }
    {
        if self.lists.is_empty() {
            self.lists = new_lists(alloc)?;
        }
        Ok(())
    }

    /// Notes a number for the moment `t`, if it has a list. It fails where memory runs out, and then nothing has changed.
    #[inline(always)]
    pub(crate) fn add(&mut self, t: u64, number: usize) -> Result<bool, AllocError>
        ensures near { IfOk result (λ is_near. is_near ≡ true → IsAdded t number self.old self.new) }
        ensures same { IfOk result (λ is_near. is_near ≡ false → AreSame self.old self.new) }
        ensures far { IfOk result (λ is_near. is_near ≡ false → noted self.new t ≡ []) }
        ensures err { OnErr result (AreSame self.old self.new) }
    {
        if !is_near(self.from, t) {
            return Ok(false);
        }
        match self.lists.get_mut((t % COUNT) as usize) {
            Some(numbers) => {
                numbers.push(number)?;
                Ok(true)
            }
            None => Ok(false),
        }
    }

    /// The first moment for which a number is noted.
    pub(crate) fn first(&self) -> Option<u64>
        ensures noted { IfSome result (λ t. noted self.now t ≢ []) }
        ensures least { IfSome result (λ t. (u : ℕ) → u < t → noted self.now u ≡ []) }
        ensures none { IfNone result ((u : ℕ) → noted self.now u ≡ []) }
    {
        for t in self.from..self.from + COUNT {
            if !self.numbers(t).is_empty() {
                return Some(t);
            }
        }
        None
    }

    /// The numbers that are noted for the moment `t`.
    pub(crate) fn numbers(&self, t: u64) -> &[usize]
        ensures { result.now ≡ noted self.now t }
    {
        if !is_near(self.from, t) {
            return &[];
        }
        match self.lists.get((t % COUNT) as usize) {
            Some(numbers) => numbers.as_slice(),
            None => &[],
        }
    }

    /// Takes the numbers of the moment `t` away.
    pub(crate) fn empty(&mut self, t: u64)
        ensures { IsTaken t self.old self.new }
    {
        if !is_near(self.from, t) {
            return;
        }
        if let Some(numbers) = self.lists.get_mut((t % COUNT) as usize) {
            numbers.clear();
        }
    }

    /// Moves the numbers of the moment `t` into an empty list, and keeps that one's memory in its place.
    pub(crate) fn exchange(&mut self, t: u64, out: &mut Vec<usize>)
        requires { out.old.items ≡ [] }
        ensures numbers { out.new.items ≡ noted self.old t }
        ensures rest { IsTaken t self.old self.new }
    {
        if !is_near(self.from, t) {
            return;
        }
        if let Some(numbers) = self.lists.get_mut((t % COUNT) as usize) {
            swap(numbers, out);
        }
    }

    /// Lets the lists be those of the moments from `t` on, where no moment has a number.
    pub(crate) fn start_at(&mut self, t: u64)
        requires { (u : ℕ) → noted self.old u ≡ [] }
        ensures { AreSame self.old self.new }
    {
        self.from = t.min(LAST);
    }

    /// Lets the lists be those of the moments from `t` on, where no moment before it has a number.
    pub(crate) fn move_on(&mut self, t: u64)
        requires { (u : ℕ) → u < t → noted self.old u ≡ [] }
        ensures { AreSame self.old self.new }
    {
        self.from = t.min(LAST).max(self.from);
    }
}

// Whether the moment `t` has a list in a row from a moment on.
#[inline(always)]
fn is_near(from: u64, t: u64) -> bool
    requires { from ≤ LAST }
    ensures { IsTrue result ↔ ((from ≤ t) × (t < from + COUNT)) }
{
    t.wrapping_sub(from) < COUNT
}

// Empty lists for a row.
fn new_lists(alloc: Global) -> Result<Vec<Vec<usize>>, AllocError>
    ensures many { IfOk result (λ lists. length lists.items ≡ COUNT) }
    ensures empty { IfOk result (λ lists. All (λ list. list.items ≡ []) lists.items) }
{
    let mut lists = Vec::new(alloc);
    for _ in 0..COUNT {
        lists.push(Vec::new(alloc))?;
    }
    Ok(lists)
}
