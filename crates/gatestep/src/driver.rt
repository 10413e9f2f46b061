//! A gate's driver: the value that it gives, and the event that it has pending.

ghost use Rattle.std.specs.Prelude.{◌≡◌, ◌≢◌, None, Some};
ghost use Rattle.gatestep.specs.Step.{initial, due, same_state};

use fourstate::Value;
use std::marker::Model;
use std::mem::size_of;

const _: () = prove!(size_of::<Driver>() == 16);

/// The state of a gate's driver: the value that it gives, and the event that it has pending, if there is one. The type keeps
/// that a pending value is never the current one.
#[derive(Clone, Copy, Debug, PartialEq, Eq)]
pub struct Driver {
    // The moment at which the next value becomes current, 0 where there is none: beside the value it would leave bytes unused,
    // which are copied with it, and for which a processor waits.
    time: u64,
    current: Value,
    next: Option<Value>,
}

impl Model for Driver {
    ghost use Rattle.gatestep.specs.Step.{State};

    ghost Value = { State };

    ghost use Rattle.gatestep.specs.kept.Drivers.{state_of, fields_of, IsDriver, fields_of-kept};

    ghost view = { state_of };

    ghost invariant = { IsDriver };

    ghost inverse = { fields_of };

    ghost inverse_ok = { fields_of-kept };
}

impl Driver {
    /// The state before moment 0: x, with nothing pending (own).
    pub fn start() -> Driver
        ensures { result ≡ initial }
    {
        Driver::steady(Value::Unknown)
    }

    /// The state of this value, with nothing pending.
    #[inline(always)]
    pub fn steady(current: Value) -> Driver
        ensures { result ≡ record { current = current; pending = None } }
    {
        Driver {
            time: 0,
            current,
            next: None,
        }
    }

    /// The state of this value, with another one pending that becomes current at the moment `time`, in time units.
    #[inline(always)]
    pub fn waiting(current: Value, next: Value, time: u64) -> Driver
        requires { next ≢ current }
        ensures { result ≡ record { current = current; pending = Some (next, time) } }
    {
        Driver {
            time,
            current,
            next: Some(next),
        }
    }

    /// The value that the gate drives.
    #[inline(always)]
    pub fn current(self) -> Value
        ensures { result ≡ self.current }
    {
        self.current
    }

    /// The value that it is going to drive, and the moment at which that becomes current, in time units.
    #[inline(always)]
    pub fn pending(self) -> Option<(Value, u64)>
        ensures { result ≡ self.pending }
    {
        match self.next {
            None => None,
            Some(value) => Some((value, self.time)),
        }
    }

    /// Whether both the values and the moments are the same.
    #[inline(always)]
    pub fn is_same(self, other: Driver) -> bool
        ensures { result ≡ same_state self other }
    {
        match (self.next, other.next) {
            (None, None) => self.current == other.current,
            (Some(value), Some(next)) => {
                self.current == other.current && value == next && self.time == other.time
            }
            _ => false,
        }
    }

    /// The state once an event that is due at `t` or before has become current.
    #[inline(always)]
    pub fn due(self, t: u64) -> Driver
        ensures { result ≡ due self t }
    {
        match self.next {
            Some(value) if self.time <= t => Driver::steady(value),
            _ => self,
        }
    }
}
