//! Times that a gate's delays may be (IEEE 1364-2005, 7.14).

ghost use Rattle.std.specs.Prelude.{◌≡◌};
ghost use Rattle.fourstate.specs.Delays.{delay_times, exceeds_limit, has_zero, uniform_delays, with_fall, with_off};

use crate::limits::MAX_DELAY;

/// The times of a gate's delays, in time units, as an edit or a text writes them: any numbers, also such as no gate may
/// have.
#[derive(Clone, Copy, Debug, PartialEq, Eq)]
pub struct DelayTimes {
    /// To 1.
    pub rise: u64,
    /// To 0.
    pub fall: u64,
    /// To z, the turn-off delay, where one is given.
    pub off: Option<u64>,
}

impl DelayTimes {
    /// A rise and a fall, and no turn-off delay.
    pub fn new(rise: u64, fall: u64) -> DelayTimes
        ensures { result ≡ delay_times rise fall }
    {
        DelayTimes {
            rise,
            fall,
            off: None,
        }
    }

    /// One time, which is that of each change.
    pub fn uniform(delay: u64) -> DelayTimes
        ensures { result ≡ uniform_delays delay }
    {
        DelayTimes::new(delay, delay)
    }

    /// These times with a fall that is given behind the rise.
    pub fn with_fall(self, fall: u64) -> DelayTimes
        ensures { result ≡ with_fall self fall }
    {
        DelayTimes { fall, ..self }
    }

    /// These times with a turn-off delay that is given behind the fall.
    pub fn with_off(self, off: u64) -> DelayTimes
        ensures { result ≡ with_off self off }
    {
        DelayTimes {
            off: Some(off),
            ..self
        }
    }

    /// Whether some time is 0.
    pub fn has_zero(self) -> bool
        ensures { result ≡ has_zero self }
    {
        self.rise == 0 || self.fall == 0 || matches!(self.off, Some(0))
    }

    /// Whether some time is over the limit.
    pub fn exceeds_limit(self) -> bool
        ensures { result ≡ exceeds_limit self }
    {
        self.rise > MAX_DELAY
            || self.fall > MAX_DELAY
            || matches!(self.off, Some(off) if off > MAX_DELAY)
    }
}
