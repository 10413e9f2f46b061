//! Traces: the state of a gate's driver after each moment.

ghost use Rattle.std.specs.Prelude.{◌≡◌};
ghost use Rattle.gatestep.specs.Step.{due, initial};
ghost use Rattle.waveform.specs.kept.Digits.{digit_low, digit_of};
ghost use Rattle.waveform.specs.Entries.{same_state};
ghost use Rattle.waveform.specs.kept.Entries.{CanStore};
ghost use Rattle.waveform.specs.kept.SampleLaws.{is_same_state, same_state_self, due_twice, settled_at, stored_later};

use crate::entry::TraceEntry;
use crate::sample::Sample;
use crate::timeline::Timeline;
use gatestep::Driver;

/// The state of a gate's driver after each moment, kept as the entries at which it is not what it falls to by itself.
/// So `next_after`, `last_before` and `next_value` find no entry where an event merely falls due; `at` gives the state after
/// each moment all the same.
pub type Trace = Timeline<Driver>;

/// A state's pending event becomes current at its time. A state can be stored at a moment that can be, where that time lies
/// after it, and at most the greatest delay after it.
impl Sample for Driver {
    type Entry = TraceEntry;

    ghost stored = { λ entry. entry };

    ghost same = { same_state };

    ghost drift = { due };

    ghost start = { initial };

    ghost digit = { λ state. digit_of state.current };

    ghost can_store = { CanStore };

    #[inline(always)]
    fn entry(self, time: u64) -> TraceEntry {
        TraceEntry::new(time, self)
    }

    #[inline(always)]
    fn time(entry: &TraceEntry) -> u64 {
        entry.time()
    }

    #[inline(always)]
    fn sample(entry: &TraceEntry) -> Driver {
        entry.state()
    }

    #[inline(always)]
    fn drifted(self, time: u64) -> Driver {
        self.due(time)
    }

    #[inline(always)]
    fn is_same(self, other: Driver) -> bool {
        self.is_same(other)
    }

    #[inline(always)]
    fn digit(self) -> u64 {
        self.current() as u64
    }

    ghost digit_within = { λ state. digit_low state.current };

    ghost same_is_equal = { is_same_state };

    ghost equal_is_same = { same_state_self };

    ghost drift_twice = { due_twice };

    ghost stored_is_settled = { settled_at };

    ghost stored_within = { λ t a can. can.0 };

    ghost stored_later = { stored_later };
}

impl Timeline<Driver> {
    /// The entries, in order of time.
    pub fn entries(&self) -> &[TraceEntry]
        ensures { result.now ≡ self.now }
    {
        self.stored()
    }
}
