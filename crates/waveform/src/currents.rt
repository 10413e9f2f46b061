//! The wave of what a driver gives, found from its trace.

ghost use Rattle.std.specs.Prelude.{◌≡◌, ◌<◌, ◌≤◌, All, OnOk};
ghost use Rattle.waveform.specs.Changes.{wave_changes_below};
ghost use Rattle.waveform.specs.kept.Currents.{Gives, GoesOn, currents};
ghost use Rattle.waveform.specs.declared.times.TheConstants.{TIME_END};

use crate::change::Change;
use crate::entries::{count_until, last_entry};
use crate::sample::Sample;
use crate::trace::Trace;
use crate::wave::Wave;
use gatestep::Driver;
use std::alloc::AllocError;

/// Adds to a wave, which has what the driver of this trace gives before the moment `from`, what it gives from then on and before
/// `end`, both in time units. What a driver gives changes where an event falls due and nowhere else, so each entry is looked at
/// once. It fails where memory runs out, and then the wave may have a part of it.
pub fn append_currents(
    wave: &mut Wave,
    trace: &Trace,
    from: u64,
    end: u64,
) -> Result<(), AllocError>
    requires begun { 0 < from }
    requires order { from ≤ end }
    requires within { end ≤ TIME_END }
    requires ends { All (λ e. e.0 < end) trace.now }
    requires goes_on { GoesOn trace.now end }
    requires wave { wave.old ≡ wave_changes_below (currents trace.now) from }
    ensures { OnOk result (wave.new ≡ wave_changes_below (currents trace.now) end) }
{
    let _ = trace.last();
    let entries = trace.stored();
    let (early, later) = entries.split_at(count_until::<Driver>(entries, from - 1));
    wave.make_room(later.len() + 1)?;
    let (_, mut state) = last_entry::<Driver>(early);
    let mut done = from;
    for entry in later {
        let next = entry.time() + 1;
        append_event(wave, trace, state, done, next)?;
        state = entry.state();
        done = next;
    }
    append_event(wave, trace, state, done, end)?;
    Ok(())
}

/// Adds to a wave, which has all that the driver of this trace gives before `from`, the event that is pending in its state where
/// it falls due from then on and before `end`.
#[inline(always)]
fn append_event(
    wave: &mut Wave,
    trace: &Trace,
    state: Driver,
    from: u64,
    end: u64,
) -> Result<(), AllocError>
    requires begun { 0 < from }
    requires order { from ≤ end }
    requires within { end ≤ TIME_END }
    requires gives { Gives (currents trace.now) state from end }
    requires wave { wave.old ≡ wave_changes_below (currents trace.now) from }
    ensures { OnOk result (wave.new ≡ wave_changes_below (currents trace.now) end) }
{
    let _trace = trace;
    if let Some((value, time)) = state.pending() {
        if from <= time && time < end && !value.is_same(state.current()) {
            wave.append(Change::new(time, value))?;
        }
    }
    Ok(())
}
