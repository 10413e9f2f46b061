//! Laws of the steppers: each function does nothing, and its contract is the law.

ghost use Rattle.std.specs.Prelude.{◌≡◌};
ghost use Rattle.parstep.specs.declared.limits.TheConstants.{MAX_WORKERS};

use crate::limits::MAX_WORKERS;

/// The limits of a pool have these numbers.
pub fn limits()
    ensures { MAX_WORKERS ≡ 64 }
{}
