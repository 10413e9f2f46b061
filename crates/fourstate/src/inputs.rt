//! The values of a gate's inputs.

ghost use Rattle.std.specs.Prelude.{◌≡◌, ◌<◌, ◌≤◌, [], ◌∷◌, Some, length, slice_get};
ghost use Rattle.std.specs.Cmp.Lexicographic.{pointwise};
ghost use Rattle.fourstate.specs.kept.Planes.{high_bit, low_bit};
ghost use Rattle.fourstate.specs.kept.Summaries.{next_summary, summary_of};
ghost use Rattle.fourstate.specs.Values.{same_value};

use crate::limits::MAX_INPUTS;
use crate::value::Value;
use std::marker::Model;
use std::mem::size_of;

const _: () = prove!(MAX_INPUTS <= 64);

const _: () = prove!(size_of::<Inputs>() == 24);

// What is known of some values in four bits: whether a 0 is among them, a 1, an odd number of ones, and an x or a z. For each
// such number, in their order, the one that it becomes where a 0 is added, a 1, an x and a z.
static SUMMARIES: [u8; 64] = [
    1, 6, 8, 8, 1, 7, 9, 9, 3, 6, 10, 10, 3, 7, 11, 11, 5, 2, 12, 12, 5, 3, 13, 13, 7, 2, 14, 14,
    7, 3, 15, 15, 9, 14, 8, 8, 9, 15, 9, 9, 11, 14, 10, 10, 11, 15, 11, 11, 13, 10, 12, 12, 13, 11,
    13, 13, 15, 10, 14, 14, 15, 11, 15, 15,
];

/// The values of a gate's inputs, at most `MAX_INPUTS` (own). Contracts see the list of them, the first input first. Each is
/// written by one bit of either word, that of the first input the lowest; beside these stands what a gate has to know of them.
#[derive(Clone, Copy, Debug)]
pub struct Inputs {
    low: u64,
    high: u64,
    len: u32,
    // What a gate of inputs that are all alike has to know of them.
    summary: u8,
    // The first two inputs, those of a three-state gate, x where there is none.
    first: Value,
    second: Value,
}

impl Model for Inputs {
    ghost use Rattle.std.specs.Prelude.{List};
    ghost use Rattle.fourstate.specs.declared.value.Value as values;

    ghost Value = { List values.Value };

    ghost use Rattle.fourstate.specs.kept.Planes.{inputs_of, fields_of, AreInputs};
    ghost use Rattle.fourstate.specs.kept.PlaneLaws.{fields_of-kept};

    ghost view = { inputs_of };

    ghost invariant = { AreInputs };

    ghost inverse = { fields_of };

    ghost inverse_ok = { fields_of-kept };
}

impl Inputs {
    /// The values of no input.
    #[inline(always)]
    pub fn new() -> Inputs
        ensures { result ≡ [] }
    {
        Inputs {
            low: 0,
            high: 0,
            len: 0,
            summary: 0,
            first: Value::Unknown,
            second: Value::Unknown,
        }
    }

    /// These values.
    pub fn of(values: &[Value]) -> Inputs
        requires { length values.now ≤ MAX_INPUTS }
        ensures { result ≡ values.now }
    {
        let mut inputs = Inputs::new();
        let mut place = values.len();
        while place > 0 {
            place -= 1;
            inputs.put_first(values[place]);
        }
        inputs
    }

    /// Adds the value of an input before all others.
    #[inline(always)]
    #[tactic(auto, using(crate::specs::kept::PlaneLaws::values_counted))]
    pub fn put_first(&mut self, value: Value)
        requires { length self.old < MAX_INPUTS }
        ensures { self.new ≡ value ∷ self.old }
    {
        let summary = next_summary(self.summary(), value);
        self.low = self.low * 2 + low_bit(value);
        self.high = self.high * 2 + high_bit(value);
        self.len += 1;
        self.summary = summary;
        self.second = self.first;
        self.first = value;
    }

    /// How many inputs there are.
    #[inline(always)]
    #[tactic(auto, using(crate::specs::kept::PlaneLaws::values_counted))]
    pub fn len(&self) -> usize
        ensures { result ≡ length self.now }
    {
        self.len as usize
    }

    /// Whether the values are the same, in the same order.
    #[inline(always)]
    pub fn is_same(self, other: Inputs) -> bool
        ensures { result ≡ pointwise same_value self other }
    {
        (self.low, self.high, self.len) == (other.low, other.high, other.len)
    }

    /// What a gate of inputs that are all alike has to know of them.
    #[inline(always)]
    #[tactic(auto, using(crate::proofs::Summaries::summary_low))]
    pub(crate) fn summary(&self) -> u8
        ensures value { result ≡ summary_of self.now }
        ensures low { result < 16 }
    {
        self.summary
    }

    /// The first input, the data of a three-state gate.
    #[inline(always)]
    #[tactic(auto, using(crate::proofs::Summaries::first_there))]
    pub(crate) fn first(&self) -> Value
        requires { 0 < length self.now }
        ensures { slice_get self.now 0 ≡ Some result }
    {
        self.first
    }

    /// The second input, the control of a three-state gate.
    #[inline(always)]
    #[tactic(auto, using(crate::proofs::Summaries::second_there))]
    pub(crate) fn second(&self) -> Value
        requires { 1 < length self.now }
        ensures { slice_get self.now 1 ≡ Some result }
    {
        self.second
    }
}

/// The bit of the low word that writes a value, from its number and so without a branch: a processor would often guess wrong
/// which one comes.
#[inline(always)]
fn low_bit(value: Value) -> u64
    ensures { result ≡ low_bit value }
{
    (value as u64) % 2
}

/// The bit of the high word that writes a value.
#[inline(always)]
fn high_bit(value: Value) -> u64
    ensures { result ≡ high_bit value }
{
    (value as u64) / 2
}

/// The summary once this value is among them too.
#[inline(always)]
fn next_summary(summary: u8, value: Value) -> u8
    requires { summary < 16 }
    ensures { result ≡ next_summary summary value }
{
    SUMMARIES[4 * summary as usize + value as usize]
}
