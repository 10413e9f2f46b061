//! Which moments can be stored.

use crate::entry::RESTS;
use fourstate::MAX_TIME;

/// The moments that can be stored lie below this one (own): so many fit into the 8 bytes of an entry, beside the rest of it.
pub const TIME_END: u64 = u64::MAX / RESTS;

// The last horizon lies there, and the moment behind it, at which what is spliced up to the horizon goes on.
const _: () = prove!(MAX_TIME + 2 <= TIME_END);
