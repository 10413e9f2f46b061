//! Times in nanoseconds.

use anyhow::Result;
use std::time::{CpuClock, Duration};

/// A time in nanoseconds, at most the greatest `u64`.
pub fn nanoseconds(time: Duration) -> u64 {
    let seconds = time.as_secs().saturating_mul(1_000_000_000);
    seconds.saturating_add(u64::from(time.subsec_nanos()))
}

/// The processor time that the thread has used so far.
pub fn now(rt: &impl CpuClock) -> Result<Duration> {
    Ok(rt.thread_cpu_time()?)
}

/// The nanoseconds of processor time from `start` to now.
pub fn since(rt: &impl CpuClock, start: Duration) -> Result<u64> {
    Ok(nanoseconds(now(rt)?.saturating_sub(start)))
}
