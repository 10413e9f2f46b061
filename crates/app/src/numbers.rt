//! The numbers of the command line.

ghost use Rattle.std.specs.Prelude.{◌≡◌, ◌≤◌, IfSome};
ghost use Rattle.fourstate.specs.declared.limits.TheConstants.{MAX_DELAY, MAX_TIME};
ghost use Rattle.app.specs.Numbers.{delay_of_text, horizon_of_text, workers_of_text};

use fourstate::{MAX_DELAY, MAX_TIME};
use parstep::MAX_WORKERS;
use programs::number_of;

/// The horizon that a text writes: digits alone, and a number of 0 to `MAX_TIME`.
pub fn horizon_of(text: &str) -> Option<u64>
    ensures written { result ≡ horizon_of_text text.now }
    ensures within { IfSome result (λ horizon. horizon ≤ MAX_TIME) }
{
    number_of(text, 0, MAX_TIME)
}

/// The number of workers that a text writes: digits alone, and a number of 1 to `MAX_WORKERS`.
pub fn workers_of(text: &str) -> Option<u32>
    ensures written { result ≡ workers_of_text text.now }
    ensures some { IfSome result (λ workers. 1 ≤ workers) }
    ensures few { IfSome result (λ workers. workers ≤ 64) }
{
    match number_of(text, 1, u64::from(MAX_WORKERS)) {
        Some(workers) => Some(workers as u32),
        None => None,
    }
}

/// The delay that a text writes: digits alone, and a number of 1 to `MAX_DELAY`.
pub fn delay_of(text: &str) -> Option<u32>
    ensures written { result ≡ delay_of_text text.now }
    ensures within { IfSome result (λ delay. delay ≤ MAX_DELAY) }
{
    match number_of(text, 1, MAX_DELAY) {
        Some(delay) => Some(delay as u32),
        None => None,
    }
}
