//! An entry of a trace.

ghost use Rattle.std.specs.Prelude.{◌≡◌};

use crate::digits::{VALUES, value_of_digit};
use fourstate::MAX_DELAY;
use gatestep::Driver;
use std::marker::Model;
use std::mem::size_of;

/// How many numbers keep the rest of an entry: a distance of up to the greatest delay, and two values.
pub const RESTS: u64 = (MAX_DELAY + 1) * VALUES * VALUES;

const _: () = prove!(size_of::<TraceEntry>() == 8);

/// An entry of a trace: the state of a gate's driver from a moment on, up to the next entry. In between, an event that
/// falls due becomes current by itself, so it has no entry of its own. Contracts see the pair of the moment and the state.
#[derive(Clone, Copy, Debug)]
pub struct TraceEntry {
    // The moment times `RESTS`, and the rest of the entry: how long after the moment what is pending is due, 0 where nothing
    // is, the value that is pending, and the current one. So an entry has 8 bytes, and fewer go through a processor's cache.
    number: u64,
}

impl Model for TraceEntry {
    ghost use Rattle.std.specs.Prelude.{ℕ};
    ghost use Rattle.gatestep.specs.Step.{State};

    ghost Value = { ℕ × State };

    ghost use Rattle.waveform.specs.kept.TraceEntries.{kept_state, fields_of, IsTraceEntry, fields_of-kept};

    ghost view = { kept_state };

    ghost invariant = { IsTraceEntry };

    ghost inverse = { fields_of };

    ghost inverse_ok = { fields_of-kept };
}

impl TraceEntry {
    ghost use Rattle.waveform.specs.kept.Entries.{CanStore};

    /// The entry of a state from the moment `time` on, in time units. What is pending is due after that moment, and at
    /// most the greatest delay after it.
    #[inline(always)]
    pub fn new(time: u64, state: Driver) -> TraceEntry
        requires { CanStore time state }
        ensures { result ≡ (time, state) }
    {
        let rest = match state.pending() {
            None => state.current() as u64,
            Some((value, due)) => {
                ((due - time) * VALUES + value as u64) * VALUES + state.current() as u64
            }
        };
        TraceEntry {
            number: time * RESTS + rest,
        }
    }

    /// The moment from which on the state is this one, in time units.
    #[inline(always)]
    pub fn time(&self) -> u64
        ensures { result ≡ self.now.0 }
    {
        self.number / RESTS
    }

    /// The state at that moment.
    #[inline(always)]
    pub fn state(&self) -> Driver
        ensures { result ≡ self.now.1 }
    {
        let rest = self.number % RESTS;
        let current = value_of_digit(rest % VALUES);
        let after = rest / (VALUES * VALUES);
        if after == 0 {
            return Driver::steady(current);
        }
        let next = value_of_digit(rest / VALUES % VALUES);
        Driver::waiting(current, next, self.time() + after)
    }
}
