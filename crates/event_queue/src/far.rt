//! Numbers that are noted for any moments, found by a tree.

ghost use Rattle.std.specs.Prelude.{◌≡◌, ◌≢◌, ◌<◌, ◌++◌, [], ℕ, IfSome, IfNone, OnOk, OnErr};
ghost use Rattle.event_queue.specs.kept.Noted.{AreSame, IsAdded, IsTaken, noted};

use std::alloc::{AllocError, Global};
use std::collections::BTreeMap;
use std::marker::Model;

/// Numbers that are noted for moments, in the order in which they were noted.
#[derive(Drop)]
pub(crate) struct FarMoments {
    moments: BTreeMap<u64, Vec<usize>>,
    // Lists of moments that were taken, to be used again.
    spare: Vec<Vec<usize>>,
}

impl Model for FarMoments {
    ghost use Rattle.std.specs.Prelude.{ℕ, List, map};
    ghost use Rattle.event_queue.specs.kept.Noted.{IsFilled};

    ghost Value = { List (ℕ × List ℕ) };

    ghost view = { λ a. map (λ e. (e.0, e.1.items)) a.moments.entries };

    ghost invariant = { λ a. IsFilled (map (λ e. (e.0, e.1.items)) a.moments.entries) };
}

impl FarMoments {
    /// No moment with a number.
    pub(crate) fn new(alloc: Global) -> FarMoments
        ensures { (t : ℕ) → noted result t ≡ [] }
    {
        FarMoments {
            moments: BTreeMap::new(alloc),
            spare: Vec::new(alloc),
        }
    }

    /// Notes a number for the moment `t`. It fails where memory runs out, and then nothing has changed.
    pub(crate) fn add(&mut self, alloc: Global, t: u64, number: usize) -> Result<(), AllocError>
        ensures ok { OnOk result (IsAdded t number self.old self.new) }
        ensures err { OnErr result (AreSame self.old self.new) }
    {
        if let Some(numbers) = self.moments.get_mut(&t) {
            numbers.push(number)?;
            return Ok(());
        }
        let mut numbers = empty_list(alloc, &mut self.spare);
        numbers.push(number)?;
        self.moments.insert(t, numbers)?;
        Ok(())
    }

    /// The first moment for which a number is noted.
    pub(crate) fn first(&self) -> Option<u64>
        ensures noted { IfSome result (λ t. noted self.now t ≢ []) }
        ensures least { IfSome result (λ t. (u : ℕ) → u < t → noted self.now u ≡ []) }
        ensures none { IfNone result ((u : ℕ) → noted self.now u ≡ []) }
    {
        match self.moments.first_key_value() {
            Some((t, _)) => Some(*t),
            None => None,
        }
    }

    /// The numbers that are noted for the moment `t`.
    pub(crate) fn numbers(&self, t: u64) -> &[usize]
        ensures { result.now ≡ noted self.now t }
    {
        match self.moments.get(&t) {
            Some(numbers) => numbers.as_slice(),
            None => &[],
        }
    }

    /// Takes the numbers of the moment `t` away.
    pub(crate) fn clear(&mut self, t: u64)
        ensures { IsTaken t self.old self.new }
    {
        if let Some(numbers) = self.moments.remove(&t) {
            keep(&mut self.spare, numbers);
        }
    }
}

// An empty list, one that was used before if there is one.
fn empty_list(alloc: Global, spare: &mut Vec<Vec<usize>>) -> Vec<usize>
    ensures { result.items ≡ [] }
{
    match spare.pop() {
        None => Vec::new(alloc),
        Some(mut numbers) => {
            numbers.clear();
            numbers
        }
    }
}

// Keeps a list to be used again, if there is memory for it.
fn keep(spare: &mut Vec<Vec<usize>>, numbers: Vec<usize>) {
    let _kept = spare.push(numbers).is_ok();
}
