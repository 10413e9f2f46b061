//! Numbers that are noted for moments to come.

ghost use Rattle.std.specs.Prelude.{◌≡◌, ◌≢◌, ◌<◌, ◌++◌, [], ℕ, IfSome, IfNone, OnOk, OnErr};
ghost use Rattle.event_queue.specs.kept.Noted.{AreSame, IsAdded, IsTaken, noted};

use crate::appending::append_both;
use crate::far::FarMoments;
use crate::near::NearMoments;
use std::alloc::{AllocError, Global};
use std::marker::Model;

/// Numbers that are noted for moments, in time units: those of a moment in the order in which they were noted, one that was
/// noted twice there twice. Contracts read it by `noted` alone.
#[derive(Drop)]
pub struct EventQueue {
    // Numbers that were noted before their moment was near, and so before those in `near`.
    far: FarMoments,
    near: NearMoments,
}

impl Model for EventQueue {
    ghost use Rattle.std.specs.Prelude.{ℕ, List};
    ghost use Rattle.event_queue.specs.kept.Lists.{joined};

    ghost Value = { List (ℕ × List ℕ) };

    ghost view = { λ a. joined a.far a.near };
}

impl EventQueue {
    /// A queue without a number.
    pub fn new(alloc: Global) -> EventQueue
        ensures { (t : ℕ) → noted result t ≡ [] }
    {
        EventQueue {
            far: FarMoments::new(alloc),
            near: NearMoments::new(alloc),
        }
    }

    /// Notes a number for the moment `t`. It fails where memory runs out, and then nothing has changed.
    #[inline(always)]
    pub fn add(&mut self, alloc: Global, t: u64, number: usize) -> Result<(), AllocError>
        ensures ok { OnOk result (IsAdded t number self.old self.new) }
        ensures err { OnErr result (AreSame self.old self.new) }
    {
        if self.near.add(t, number)? {
            return Ok(());
        }
        self.add_elsewhere(alloc, t, number)
    }

    // Notes a number for a moment that has no list. It is not inlined, so that `add` stays small where it is.
    #[inline(never)]
    fn add_elsewhere(&mut self, alloc: Global, t: u64, number: usize) -> Result<(), AllocError>
        ensures ok { OnOk result (IsAdded t number self.old self.new) }
        ensures err { OnErr result (AreSame self.old self.new) }
    {
        self.near.make_lists(alloc)?;
        if self.near.add(t, number)? {
            return Ok(());
        }
        self.far.add(alloc, t, number)
    }

    /// The first moment for which a number is noted.
    pub fn first(&self) -> Option<u64>
        ensures noted { IfSome result (λ t. noted self.now t ≢ []) }
        ensures least { IfSome result (λ t. (u : ℕ) → u < t → noted self.now u ≡ []) }
        ensures none { IfNone result ((u : ℕ) → noted self.now u ≡ []) }
    {
        let Some(near) = self.near.first() else {
            return self.far.first();
        };
        let Some(far) = self.far.first() else {
            return Some(near);
        };
        Some(near.min(far))
    }

    /// Moves the numbers of the moment `t` to the end of `out`. It fails where memory runs out, and then nothing has changed.
    pub fn take(&mut self, t: u64, out: &mut Vec<usize>) -> Result<(), AllocError>
        ensures taken { OnOk result (out.new.items ≡ out.old.items ++ noted self.old t) }
        ensures rest { OnOk result (IsTaken t self.old self.new) }
        ensures err { OnErr result (AreSame self.old self.new) }
        ensures err_out { OnErr result (out.new.items ≡ out.old.items) }
    {
        if out.is_empty() && self.far.numbers(t).is_empty() {
            self.near.exchange(t, out);
            return Ok(());
        }
        append_both(out, self.far.numbers(t), self.near.numbers(t))?;
        self.far.clear(t);
        self.near.clear(t);
        Ok(())
    }
}
