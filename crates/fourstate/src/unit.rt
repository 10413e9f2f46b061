//! Time units (IEEE 1364-2005, 19.8).

/// How many of a unit.
#[derive(Clone, Copy, Debug, Default, PartialEq, Eq, Hash)]
pub enum Magnitude {
    #[default]
    One,
    Ten,
    Hundred,
}

/// A unit of time.
#[derive(Clone, Copy, Debug, Default, PartialEq, Eq, Hash)]
pub enum Unit {
    Second,
    Millisecond,
    Microsecond,
    #[default]
    Nanosecond,
    Picosecond,
    Femtosecond,
}

/// How long one unit of times is, as a directive `` `timescale `` writes it: 1, 10 or 100 of a unit, 1 ns by default.
#[derive(Clone, Copy, Debug, Default, PartialEq, Eq, Hash)]
pub struct TimeUnit {
    pub magnitude: Magnitude,
    pub unit: Unit,
}
