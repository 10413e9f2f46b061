//! Whether the calls that are refused are named.

use crate::report::TRIES;
use std::env;
use std::env::Env;

/// Whether there is a word behind the program's name.
pub fn names_calls<R: Env + AllocGlobal>(rt: &R) -> bool {
    for _ in 0..TRIES {
        if let Ok(words) = env::args(rt) {
            let mut words = words.skip(1);
            return words.next().is_some();
        }
    }
    false
}
