//! How many drivers of a net give each value: all that its kind needs to know of them.

ghost use Rattle.std.specs.Prelude.{◌≡◌, ◌<◌, ◌≤◌, ◌+◌, ◌-◌, ◌^◌, List, [], if◌then◌else◌};
ghost use Rattle.fourstate.specs.Nets.{net_of};
ghost use Rattle.fourstate.specs.declared.value.Value as values;
ghost use Rattle.scratch.specs.kept.Kept.{values_at};

use crate::moment::value_at;
use fourstate::{NetKind, Value, resolve};

/// How many of some drivers give each value other than z.
#[derive(Clone, Copy, Debug, PartialEq, Eq)]
pub struct Tally {
    pub zeros: usize,
    pub ones: usize,
    pub unknowns: usize,
}

impl Tally {
    ghost use Rattle.scratch.specs.kept.Tally.{tally_of, times};

    /// That of no driver.
    pub fn new() -> Tally
        ensures { result ≡ tally_of [] }
    {
        Tally {
            zeros: 0,
            ones: 0,
            unknowns: 0,
        }
    }

    /// Adds a driver that gives this value.
    pub fn add(&mut self, value: Value)
        requires zeros { self.old.zeros + times Value.Zero value < 2 ^ 64 }
        requires ones { self.old.ones + times Value.One value < 2 ^ 64 }
        requires unknowns { self.old.unknowns + times Value.Unknown value < 2 ^ 64 }
        ensures zeros { self.new.zeros ≡ self.old.zeros + times Value.Zero value }
        ensures ones { self.new.ones ≡ self.old.ones + times Value.One value }
        ensures unknowns { self.new.unknowns ≡ self.old.unknowns + times Value.Unknown value }
    {
        match value {
            Value::Zero => self.zeros += 1,
            Value::One => self.ones += 1,
            Value::Unknown => self.unknowns += 1,
            Value::HighZ => {}
        }
    }

    /// Takes off a driver that gives this value.
    pub fn remove(&mut self, value: Value)
        requires zeros { times Value.Zero value ≤ self.old.zeros }
        requires ones { times Value.One value ≤ self.old.ones }
        requires unknowns { times Value.Unknown value ≤ self.old.unknowns }
        ensures zeros { self.new.zeros ≡ self.old.zeros - times Value.Zero value }
        ensures ones { self.new.ones ≡ self.old.ones - times Value.One value }
        ensures unknowns { self.new.unknowns ≡ self.old.unknowns - times Value.Unknown value }
    {
        match value {
            Value::Zero => self.zeros -= 1,
            Value::One => self.ones -= 1,
            Value::Unknown => self.unknowns -= 1,
            Value::HighZ => {}
        }
    }

    /// That of the drivers at some places.
    pub fn of(values: &[Value], places: &[u32]) -> Tally
        ensures { result ≡ tally_of (values_at values.now places.now) }
    {
        let mut tally = Tally::new();
        for place in places {
            tally.add(value_at(values, *place as usize));
        }
        tally
    }

    /// What a net of this kind has from the drivers.
    pub fn resolve(&self, kind: NetKind) -> Value
        ensures { (values : List values.Value) → self.now ≡ tally_of values → result ≡ net_of kind values }
    {
        let zero = one_if(self.zeros > 0, Value::Zero);
        let one = one_if(self.ones > 0, Value::One);
        let unknown = one_if(self.unknowns > 0, Value::Unknown);
        resolve(kind, &[zero, one, unknown])
    }
}

/// The value if it is given, z otherwise.
#[inline(always)]
fn one_if(is_given: bool, value: Value) -> Value
    ensures { result ≡ (if is_given then value else Value.HighZ) }
{
    if is_given { value } else { Value::HighZ }
}
