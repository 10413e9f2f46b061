//! One viewer.

ghost use Rattle.std.specs.Prelude.{◌≡◌, ◌==◌, ◌<◌, [], Ok, Err, IfErr, IfSome, OnOk, OnErr, length, position};
ghost use Rattle.hubcore.specs.States.{viewer};
ghost use Rattle.hubcore.specs.Steps.{looked, learned, released};

use crate::fault::CoreFault;
use std::alloc::Global;
use std::marker::Model;

/// What a viewer saw and holds.
#[derive(Drop)]
pub(crate) struct Viewer {
    seen: u64,
    held: Vec<u64>,
}

impl Model for Viewer {
    ghost use Rattle.hubcore.specs.States.{ViewerRecord, viewer};

    ghost Value = { ViewerRecord };

    ghost view = { λ v. viewer v.seen v.held.items };
}

impl Viewer {
    /// A viewer that saw nothing and holds nothing.
    pub(crate) fn new(alloc: Global) -> Viewer
        ensures { result ≡ viewer 0 [] }
    {
        Viewer {
            seen: 0,
            held: Vec::new(alloc),
        }
    }

    /// Takes the snapshot of this length, which is shown.
    pub(crate) fn look(&mut self, shown: u64) -> Result<(), CoreFault>
        ensures looked { OnOk result (self.new ≡ looked shown self.old) }
        ensures fault { IfErr result (λ fault. fault ≡ CoreFault.OutOfMemory) }
        ensures unchanged { OnErr result (self.new ≡ self.old) }
    {
        if self.held.push(shown).is_err() {
            return Err(CoreFault::OutOfMemory);
        }
        self.seen = shown;
        Ok(())
    }

    /// Is told that the snapshot of this length is shown.
    pub(crate) fn learn(&mut self, length: u64)
        ensures { self.new ≡ learned length self.old }
    {
        self.seen = self.seen.max(length);
    }

    /// Lets go of a snapshot of this length.
    pub(crate) fn release(&mut self, length: u64) -> Result<(), CoreFault>
        ensures released { OnOk result (released length self.old ≡ Ok self.new) }
        ensures fault { IfErr result (λ fault. released length self.old ≡ Err fault) }
        ensures unchanged { OnErr result (self.new ≡ self.old) }
    {
        let Some(place) = place_of(self.held.as_slice(), length) else {
            return Err(CoreFault::NotHeld);
        };
        self.held.remove(place);
        Ok(())
    }
}

// The place of the first of these numbers that is this one.
fn place_of(numbers: &[u64], number: u64) -> Option<usize>
    ensures place { result ≡ position (λ n. n == number) numbers.now }
    ensures within { IfSome result (λ place. place < length numbers.now) }
{
    numbers.iter().position(|n| *n == number)
}
