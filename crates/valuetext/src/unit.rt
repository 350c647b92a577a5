//! The units of times and timestamps.

ghost use Rattle.std.specs.Prelude.{◌≡◌, ◌≤◌, pos, ◌≤ℤ◌};
ghost use Rattle.valuetext.specs.Units as units;

/// The unit in which a time or a timestamp is counted.
#[derive(Clone, Copy, Debug, PartialEq, Eq)]
pub enum TimeUnit {
    Millis,
    Micros,
}

impl TimeUnit {
    /// How many nanoseconds it is.
    pub fn nanos(self) -> u64
        ensures { result ≡ units.nanos_of self }
    {
        match self {
            TimeUnit::Millis => 1_000_000,
            TimeUnit::Micros => 1_000,
        }
    }

    /// How many places of a fraction of a second it has.
    pub fn places(self) -> u8
        ensures value { result ≡ units.unit_places self }
        ensures bound { result ≤ 6 }
    {
        match self {
            TimeUnit::Millis => 3,
            TimeUnit::Micros => 6,
        }
    }

    /// How many of it a second has.
    pub fn per_second(self) -> i64
        ensures { result ≡ pos (units.per_second self) }
    {
        match self {
            TimeUnit::Millis => 1_000,
            TimeUnit::Micros => 1_000_000,
        }
    }

    /// How many of it a day has.
    pub fn per_day(self) -> i64
        ensures value { result ≡ pos (units.per_day self) }
        ensures bound { (pos 86_400_000 ≤ℤ result) × (result ≤ℤ pos 86_400_000_000) }
    {
        match self {
            TimeUnit::Millis => 86_400_000,
            TimeUnit::Micros => 86_400_000_000,
        }
    }
}
