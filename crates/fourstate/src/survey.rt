//! Which values are among many: all that a net needs to know of them.

ghost use Rattle.std.specs.Prelude.{◌≡◌};
ghost use Rattle.fourstate.specs.Values.{occurs};

use crate::value::Value;
use crate::value::Value::{One, Unknown, Zero};

/// Which values other than z occur among some values.
#[derive(Drop)]
pub struct Survey {
    pub zero: bool,
    pub one: bool,
    pub unknown: bool,
}

impl Survey {
    /// Looks at each value once, in the same way whatever it is: a processor would often guess wrong which one comes.
    #[inline(always)]
    pub fn of(values: &[Value]) -> Survey
        ensures zero { result.zero ≡ occurs Value.Zero values.now }
        ensures one { result.one ≡ occurs Value.One values.now }
        ensures unknown { result.unknown ≡ occurs Value.Unknown values.now }
    {
        let mut survey = Survey {
            zero: false,
            one: false,
            unknown: false,
        };
        for value in values {
            survey.zero |= *value == Zero;
            survey.one |= *value == One;
            survey.unknown |= *value == Unknown;
        }
        survey
    }
}
