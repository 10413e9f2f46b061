//! A change of a wave.

ghost use Rattle.std.specs.Prelude.{◌≡◌, ◌<◌};
ghost use Rattle.waveform.specs.declared.times.TheConstants.{TIME_END};

use crate::digits::{VALUES, value_of_digit};
use fourstate::Value;
use std::marker::Model;
use std::mem::size_of;

const _: () = prove!(size_of::<Change>() == 8);

/// A change: from its moment on, up to the next change, the value is this one. Contracts see it as the pair of the two.
#[derive(Clone, Copy, Debug, PartialEq, Eq)]
pub struct Change {
    // The moment, then two bits for the value: so a change has 8 bytes, and fewer of them go through a processor's cache.
    number: u64,
}

impl Model for Change {
    ghost use Rattle.std.specs.Prelude.{ℕ};
    ghost use Rattle.fourstate.specs.declared.value.Value as values;
    ghost use Rattle.waveform.specs.kept.StoredChanges.{change_of, fields_of, fields_of-kept};

    ghost Value = { ℕ × values.Value };

    ghost view = { change_of };

    ghost inverse = { fields_of };

    ghost inverse_ok = { fields_of-kept };
}

impl Change {
    /// A change at the moment `time`, in time units, to this value.
    #[inline(always)]
    pub fn new(time: u64, value: Value) -> Change
        requires { time < TIME_END }
        ensures { result ≡ (time, value) }
    {
        Change {
            number: time * VALUES + value as u64,
        }
    }

    /// The moment, in time units.
    #[inline(always)]
    pub fn time(&self) -> u64
        ensures { result ≡ self.now.0 }
    {
        self.number / VALUES
    }

    /// The value from that moment on.
    #[inline(always)]
    pub fn value(&self) -> Value
        ensures { result ≡ self.now.1 }
    {
        value_of_digit(self.number % VALUES)
    }
}
