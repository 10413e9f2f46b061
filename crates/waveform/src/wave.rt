//! Waves: what a net has at each moment.

ghost use Rattle.std.specs.Prelude.{◌≡◌, ◌<◌, IfOk, refl};
ghost use Rattle.fourstate.specs.kept.ValueLaws.{is_same, same_self};
ghost use Rattle.fourstate.specs.Values.{same_value};
ghost use Rattle.fourstate.specs.declared.value.Value.TheVariants.{Unknown};
ghost use Rattle.waveform.specs.kept.Digits.{digit_low, digit_of};
ghost use Rattle.waveform.specs.Entries.{standing};
ghost use Rattle.waveform.specs.declared.times.TheConstants.{TIME_END};

use crate::change::Change;
use crate::sample::Sample;
use crate::timeline::Timeline;
use chunked::Shared;
use fourstate::Value;
use std::alloc::{AllocError, Global};

/// What a net has at each moment, kept as its changes.
pub type Wave = Timeline<Value>;

/// A value stands until the next change, and any value can be stored at any moment that can be.
impl Sample for Value {
    type Entry = Change;

    ghost stored = { λ change. change };

    ghost same = { same_value };

    ghost drift = { standing };

    ghost start = { Unknown };

    ghost digit = { digit_of };

    ghost can_store = { λ t _. t < TIME_END };

    #[inline(always)]
    fn entry(self, time: u64) -> Change {
        Change::new(time, self)
    }

    #[inline(always)]
    fn time(entry: &Change) -> u64 {
        entry.time()
    }

    #[inline(always)]
    fn sample(entry: &Change) -> Value {
        entry.value()
    }

    #[inline(always)]
    fn drifted(self, _time: u64) -> Value {
        self
    }

    #[inline(always)]
    fn is_same(self, other: Value) -> bool {
        self == other
    }

    #[inline(always)]
    fn digit(self) -> u64 {
        self as u64
    }

    ghost digit_within = { digit_low };

    ghost same_is_equal = { is_same };

    ghost equal_is_same = { same_self };

    ghost drift_twice = { λ a s u le. refl };

    ghost stored_is_settled = { λ t a can. refl };

    ghost stored_within = { λ t a can. can };

    ghost stored_later = { λ t u a le low can. low };
}

impl Timeline<Value> {
    /// The changes, in order of time.
    pub fn changes(&self) -> &[Change]
        ensures { result.now ≡ self.now }
    {
        self.stored()
    }

    /// The wave as a run keeps it, which marks what values a long one has, to be shared. It fails where memory runs out, and then
    /// the wave is gone.
    pub fn shared(self, alloc: Global) -> Result<Shared<Wave>, AllocError>
        ensures { IfOk result (λ shared. shared ≡ self) }
    {
        let mut wave = self;
        wave.mark()?;
        Shared::new(alloc, wave)
    }
}
