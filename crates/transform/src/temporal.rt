// Moments in microseconds and in nanoseconds, with their days and hours (src/transform/temporal.rs).
ghost use Rattle.std.specs.Prelude.{◌≡◌, ◌*◌};
ghost use Rattle.transform.specs.Floor.{floor_div};
ghost use Rattle.transform.specs.Temporal.{unit_of, hours_per_day, micros_per_hour, nanos_per_hour};

use crate::calendar::Days;
use values::datatypes::PrimitiveType;

const MICROSECONDS_PER_HOUR: i64 = 3_600_000_000;

const MICROSECONDS_PER_DAY: i64 = 86_400_000_000;

const NANOSECONDS_PER_HOUR: i64 = 3_600_000_000_000;

const NANOSECONDS_PER_DAY: i64 = 86_400_000_000_000;

// What a column counts from 1970-01-01. Time counts from midnight, so it is none of these.
#[derive(Clone, Copy)]
pub enum TimeUnit {
    Day,
    Microsecond,
    Nanosecond,
    Neither,
}

pub fn unit_of(column: PrimitiveType) -> TimeUnit
    ensures { result ≡ unit_of column }
{
    match column {
        PrimitiveType::Date => TimeUnit::Day,
        PrimitiveType::Timestamp | PrimitiveType::Timestamptz => TimeUnit::Microsecond,
        PrimitiveType::TimestampNs | PrimitiveType::TimestamptzNs => TimeUnit::Nanosecond,
        _ => TimeUnit::Neither,
    }
}

// The two counts are types of their own, so that neither is taken for the other. One type with the unit as a parameter would ask each caller that
// the unit is positive, and its methods would be these two lines.

// A count of microseconds from 1970-01-01.
#[derive(Clone, Copy)]
pub struct Micros(pub i64);

// A count of nanoseconds from 1970-01-01.
#[derive(Clone, Copy)]
pub struct Nanos(pub i64);

impl Micros {
    #[tactic(auto, using(crate::proofs::Moments::moments))]
    pub fn day(self) -> Days
        ensures { result.0 ≡ floor_div self.0 (hours_per_day * micros_per_hour) }
    {
        Days(self.0.div_euclid(MICROSECONDS_PER_DAY) as i32)
    }

    #[tactic(auto, using(crate::proofs::Moments::moments))]
    pub fn hour(self) -> i64
        ensures { result ≡ floor_div self.0 micros_per_hour }
    {
        self.0.div_euclid(MICROSECONDS_PER_HOUR)
    }
}

impl Nanos {
    #[tactic(auto, using(crate::proofs::Moments::moments))]
    pub fn day(self) -> Days
        ensures { result.0 ≡ floor_div self.0 (hours_per_day * nanos_per_hour) }
    {
        Days(self.0.div_euclid(NANOSECONDS_PER_DAY) as i32)
    }

    #[tactic(auto, using(crate::proofs::Moments::moments))]
    pub fn hour(self) -> i64
        ensures { result ≡ floor_div self.0 nanos_per_hour }
    {
        self.0.div_euclid(NANOSECONDS_PER_HOUR)
    }
}
