//! The next moment at which something may happen to what differs.

ghost use Rattle.std.specs.Prelude.{◌≡◌, ◌≢◌, ◌<◌, ◌≤◌, ◌⊎◌, ℕ, suc, []};
ghost use Rattle.event_queue.specs.kept.Noted.{noted};
ghost use Rattle.design.specs.Keys.{netlist};
ghost use Rattle.rundiff.specs.Dirty.{rework_below};
ghost use Rattle.rundiff.specs.kept.Fronts.{IsFront};

use crate::former::Former;
use crate::front::Front;
use event_queue::EventQueue;
use fourstate::Value;
use gatestep::{Driver, Stepper};
use waveform::laws;

impl Front {
    /// The first moment before `end`, from the moments on that are done, at which something may happen to what is live; `end`
    /// where there is none. At the moments before it nothing is evaluated.
    pub fn next_moment<S: Stepper>(&self, former: &Former, end: u64) -> u64
        requires front { IsFront S.answer (netlist former.now.old.now) (netlist former.now.new.now) self.now self.now.done }
        requires order { self.now.done ≤ end }
        requires within { end ≤ suc (netlist former.now.old.now).horizon }
        ensures from { self.now.done ≤ result }
        ensures until { result ≤ end }
        ensures front { IsFront S.answer (netlist former.now.old.now) (netlist former.now.new.now) self.now result }
        ensures idle { rework_below S.answer (netlist former.now.old.now) (netlist former.now.new.now) result ≡ rework_below S.answer (netlist former.now.old.now) (netlist former.now.new.now) self.now.done }
    {
        if self.done == 0 {
            return 0;
        }
        former.old.lawful();
        former.new.lawful();
        laws::no_change::<Value>();
        laws::no_change::<Driver>();
        let net = first_before(&self.nets, end);
        let input = first_before(&self.inputs, net);
        first_before(&self.events, input)
    }
}

/// The first moment before `end` for which a number is noted; `end` where there is none.
fn first_before(queue: &EventQueue, end: u64) -> u64
    ensures until { result ≤ end }
    ensures none { (u : ℕ) → u < result → noted queue.now u ≡ [] }
    ensures some { (result ≡ end) ⊎ (noted queue.now result ≢ []) }
{
    match queue.first() {
        Some(first) if first < end => first,
        _ => end,
    }
}
