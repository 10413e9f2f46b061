//! Gate delays (IEEE 1364-2005, 7.14).

ghost use Rattle.std.specs.Prelude.{◌≡◌, ◌↔◌, IsSome, IfSome, false, is_some};
ghost use Rattle.fourstate.specs.Delays.{delay_times, delay_to, exceeds_limit, has_zero, same_delays, with_off};
ghost use Rattle.fourstate.specs.kept.Delays.{AreDelays, IsDelay};

use crate::delay_times::DelayTimes;
use crate::value::Value;
use std::marker::Model;
use std::mem::size_of;

const _: () = prove!(size_of::<Delays>() == 12);

/// A gate's delays, in time units, each 1 to 1,000,000 (own). The type keeps the range.
#[derive(Clone, Copy, Debug, PartialEq, Eq)]
pub struct Delays {
    rise: u32,
    fall: u32,
    // The turn-off delay, 0 where none is given: an option would take 8 bytes, in each task.
    off: u32,
}

impl Model for Delays {
    ghost use Rattle.fourstate.specs.kept.Delays.{AreDelays};
    ghost use Rattle.fourstate.specs.kept.KeptDelays.{fields_of, fields_of-kept, times_of};
    ghost use Rattle.fourstate.specs.declared.delay_times.DelayTimes.{DelayTimes};

    ghost Value = { DelayTimes };

    ghost view = { times_of };

    ghost invariant = { λ a. AreDelays (times_of a) };

    ghost inverse = { fields_of };

    ghost inverse_ok = { λ a are. fields_of-kept a };
}

impl Delays {
    /// The delays to 1 and to 0, without a turn-off delay; none exactly where one is 0 or over the limit.
    pub fn new(rise: u64, fall: u64) -> Option<Delays>
        ensures variant { IsSome result ↔ (IsDelay rise × IsDelay fall) }
        ensures value { IfSome result (λ delays. delays ≡ delay_times rise fall) }
    {
        Delays::from_times(DelayTimes::new(rise, fall))
    }

    /// The delays to 1 and to 0 and the turn-off delay; none exactly where one is 0 or over the limit.
    pub fn with_off(rise: u64, fall: u64, off: u64) -> Option<Delays>
        ensures variant { IsSome result ↔ (IsDelay rise × IsDelay fall × IsDelay off) }
        ensures value { IfSome result (λ delays. delays ≡ with_off (delay_times rise fall) off) }
    {
        Delays::from_times(DelayTimes::new(rise, fall).with_off(off))
    }

    /// The delays of these times; none exactly where one is 0 or over the limit.
    pub fn from_times(times: DelayTimes) -> Option<Delays>
        ensures variant { IsSome result ↔ AreDelays times }
        ensures tests { IsSome result ↔ ((has_zero times ≡ false) × (exceeds_limit times ≡ false)) }
        ensures value { IfSome result (λ delays. delays ≡ times) }
    {
        if times.has_zero() || times.exceeds_limit() {
            return None;
        }
        Some(Delays {
            rise: times.rise as u32,
            fall: times.fall as u32,
            off: times.off.unwrap_or(0) as u32,
        })
    }

    /// Whether these are the same delays.
    pub fn is_same(self, other: Delays) -> bool
        ensures { result ≡ same_delays self other }
    {
        self == other
    }

    /// What all delays keep. It does nothing.
    pub fn lawful(&self)
        ensures { AreDelays self.now }
    {
        let _off = self.off;
    }

    /// Whether a turn-off delay is given.
    pub fn has_off(self) -> bool
        ensures { result ≡ is_some self.off }
    {
        self.off != 0
    }
}

/// The delay of a change to this value: the rise to 1 and the fall to 0; to z the turn-off delay where one is given, else the
/// lesser of the two; to x the least of those given. It depends on the new value alone (IEEE 1364-2005, 7.14; own to x and z
/// where only two delays are given).
#[inline(always)]
pub fn delay(delays: &Delays, to: Value) -> u32
    ensures delay { result ≡ delay_to delays.now to }
    ensures in_range { IsDelay result }
{
    let lesser = delays.rise.min(delays.fall);
    match to {
        Value::One => delays.rise,
        Value::Zero => delays.fall,
        _ if delays.off == 0 => lesser,
        Value::HighZ => delays.off,
        Value::Unknown => lesser.min(delays.off),
    }
}
