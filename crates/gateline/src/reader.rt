//! An input of a gate, read along its wave.

ghost use Rattle.std.specs.Prelude.{◌≡◌, ◌<◌, ◌≤◌, [], length, take, drop, All};
ghost use Rattle.fourstate.specs.Values.{same_value};
ghost use Rattle.fourstate.specs.declared.value.Value.TheVariants.{Unknown};
ghost use Rattle.gateline.specs.kept.Ahead.{GoesOn, next_of, rest_then, value_then};
ghost use Rattle.gateline.specs.kept.Waves.{input_at};
ghost use Rattle.waveform.specs.Changes.{wave_at};
ghost use Rattle.waveform.specs.Entries.{standing};
ghost use Rattle.waveform.specs.kept.Timelines.{IsTimeline};

use chunked::Shared;
use fourstate::Value;
use scratch::Input;
use waveform::{Change, TIME_END, Wave};

/// What an input has from a moment on.
#[derive(Clone, Copy)]
pub struct Reader<'a> {
    /// Its value, until the first of the changes.
    pub value: Value,
    // The moment of the first of them, which is asked for at each moment.
    next: u64,
    /// The changes that come, in order of time.
    pub rest: &'a [Change],
    ghost ahead: { next ≡ next_of rest.now },
}

/// An input that is always x: what stands where a gate has no further input.
impl<'a> Default for Reader<'a> {
    fn default() -> Reader<'a> {
        Reader::steady(Value::Unknown)
    }
}

/// How many changes of a wave lie at the moment `t`, in time units, or before. At 0 there is one.
fn count_until(changes: &[Change], t: u64) -> usize
    requires { IsTimeline same_value standing changes.now }
    ensures begun { 0 < result }
    ensures within { result ≤ length changes.now }
    ensures until { All (λ change. change.0 ≤ t) (take result changes.now) }
    ensures after { All (λ change. t < change.0) (drop result changes.now) }
{
    if t == 0 {
        return 1;
    }
    changes.partition_point(|change| change.time() <= t)
}

impl<'a> Reader<'a> {
    /// An input that never changes.
    pub fn steady(value: Value) -> Reader<'a>
        ensures value { result.value ≡ value }
        ensures rest { result.rest.now ≡ [] }
    {
        Reader::behind(value, &[])
    }

    /// A wave from the moment `t` on, in time units.
    pub fn open(wave: &'a Wave, t: u64) -> Reader<'a>
        ensures { GoesOn (wave_at wave.now) result.value result.rest.now t }
    {
        let _last = wave.last();
        let changes = wave.changes();
        let count = count_until(changes, t);
        Reader::behind(changes[count - 1].value(), &changes[count..])
    }

    /// An input from the moment `t` on, in time units.
    pub fn of(input: Input, waves: &'a [Shared<Wave>], t: u64) -> Reader<'a>
        ensures { GoesOn (input_at waves.now input) result.value result.rest.now t }
    {
        match input {
            Input::At(place) => match waves.get(place as usize) {
                Some(wave) => return Reader::open(wave.value(), t),
                None => return Reader::steady(Value::Unknown),
            },
            Input::Fixed(value) => return Reader::steady(value),
        }
    }

    /// A reader of this value up to the first of these changes.
    #[inline(always)]
    fn behind(value: Value, rest: &'a [Change]) -> Reader<'a>
        ensures value { result.value ≡ value }
        ensures rest { result.rest.now ≡ rest.now }
    {
        let next = match rest.first() {
            Some(change) => change.time(),
            None => TIME_END,
        };
        Reader { value, next, rest }
    }

    /// The moment of the first change, in time units; `TIME_END` where there is none.
    #[inline(always)]
    pub fn next(self) -> u64
        ensures { result ≡ next_of self.entry.rest.now }
    {
        self.next
    }

    /// Brings the reader to the moment `t`, in time units, before which no change comes.
    #[inline(always)]
    pub fn pass(&mut self, t: u64)
        ensures value { self.new.value ≡ value_then self.old.value self.old.rest.now t }
        ensures rest { self.new.rest.now ≡ rest_then self.old.rest.now t }
    {
        if self.next == t {
            if let Some((first, rest)) = self.rest.split_first() {
                *self = Reader::behind(first.value(), rest);
            }
        }
    }
}
