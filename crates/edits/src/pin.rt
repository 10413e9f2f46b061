//! What edits connect the inputs of gates to.

ghost use Rattle.std.specs.Prelude.{◌≡◌, ◌++◌, ◌∷◌, [], OnOk, OnErr};

use crate::word::Word;
use fourstate::Value;
use std::alloc::{AllocError, Global};
use std::marker::Model;

/// What an edit connects a gate's input to.
#[derive(Debug, Drop)]
pub enum Pin {
    /// The net of this name.
    Net(Word),
    /// A value that never changes.
    Constant(Value),
}

impl Clone for Pin {
    ghost use Rattle.std.specs.Prelude.{◌≡◌};

    ghost is_clone = { λ old new. new ≡ old };

    fn clone(&self) -> Result<Pin, AllocError> {
        match self {
            Pin::Net(word) => {
                let word = word.clone()?;
                Ok(Pin::Net(word))
            }
            Pin::Constant(value) => Ok(Pin::Constant(*value)),
        }
    }
}

/// What an edit connects a gate's inputs to, in order.
#[derive(Debug, Drop)]
pub struct Pins {
    items: Vec<Pin>,
}

impl Model for Pins {
    ghost use Rattle.std.specs.Prelude.{List};
    ghost use Rattle.edits.specs.declared.pin.Pin.{Pin};

    ghost Value = { List Pin };

    ghost view = { λ p. p.items.items };
}

impl Pins {
    /// No inputs.
    pub fn new(alloc: Global) -> Pins
        ensures { result ≡ [] }
    {
        Pins {
            items: Vec::new(alloc),
        }
    }

    /// Adds an input behind the others.
    pub fn push(&mut self, pin: Pin) -> Result<(), AllocError>
        ensures ok { OnOk result (self.new ≡ self.old ++ pin ∷ []) }
        ensures err { OnErr result (self.new ≡ self.old) }
    {
        self.items.push(pin)?;
        Ok(())
    }

    /// The inputs.
    pub fn as_slice(&self) -> &[Pin]
        ensures { result.now ≡ self.now }
    {
        &self.items
    }
}

impl Clone for Pins {
    ghost use Rattle.std.specs.Prelude.{◌≡◌};

    ghost is_clone = { λ old new. new ≡ old };

    fn clone(&self) -> Result<Pins, AllocError> {
        let items = self.items.clone()?;
        Ok(Pins { items })
    }
}
