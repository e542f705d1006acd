// The transform of a number: a choice over `Transform` where the Rust has a boxed trait object (src/transform/mod.rs).
ghost use Rattle.std.specs.Prelude.{◌≡◌, true, not, ◌||◌, nat_le};
ghost use Rattle.values.specs.Types.{same_type, in_type};
ghost use Rattle.values.specs.declared.datatypes.PrimitiveType.TheVariants.{Int};
ghost use Rattle.transform.specs.Calendar.{year_of, month_of};
ghost use Rattle.transform.specs.Temporal.{unit_of, hour_of};
ghost use Rattle.partition.specs.Partition.{outside_calendar, by_calendar, day_number, int_hour, hour_number};
ghost use Rattle.partition.specs.Partition.{widest_int_width, truncate_number, transform_number, number_partition};
ghost use Rattle.partition.specs.code.PartitionAnswers.{days_of, InType, OfPresent};

use crate::result::is_known;
use transform::calendar::Days;
use transform::temporal::{Micros, Nanos, TimeUnit, unit_of};
use transform::truncate::truncate_i64;
use values::datatypes::PrimitiveType;
use values::error::ErrorKind;
use values::transform::Transform;

// The widest that Truncate of an Int takes.
const WIDEST_INT_WIDTH: u32 = 2147483647;

fn takes_width(column: PrimitiveType, width: u32) -> bool
    ensures { result ≡ (not (same_type column Int) || nat_le width widest_int_width) }
{
    column != PrimitiveType::Int || width <= WIDEST_INT_WIDTH
}

// Truncate of an Int or a Long.
#[tactic(auto, using(crate::proofs::Truncates::beyond))]
fn truncate_number(column: PrimitiveType, v: i64, width: u32) -> Result<Option<i64>, ErrorKind>
    ensures { result ≡ truncate_number column width v }
{
    if !takes_width(column, width) {
        return Err(ErrorKind::DataInvalid);
    }
    match truncate_i64(v, width) {
        Some(t) if column.holds(t) => Ok(Some(t)),
        _ => Err(ErrorKind::Overflow),
    }
}

// The day of a value of a time column.
#[tactic(auto, using(crate::proofs::DateColumns::date_fits, transform::specs::laws::FloorLaws::floor_one), unfolding(transform::specs::Temporal::day_of))]
fn day_of(column: PrimitiveType, v: i64) -> Result<Days, ErrorKind>
    requires { in_type column v ≡ true }
    ensures { result ≡ days_of column v }
{
    match unit_of(column) {
        TimeUnit::Day => Ok(Days(v as i32)),
        TimeUnit::Microsecond => Ok(Micros(v).day()),
        TimeUnit::Nanosecond => Ok(Nanos(v).day()),
        TimeUnit::Neither => Err(ErrorKind::NoResultType),
    }
}

// The hour of one.
#[tactic(auto, unfolding(transform::specs::Temporal::hour_of))]
fn hour_of(column: PrimitiveType, v: i64) -> Result<i64, ErrorKind>
    ensures { result ≡ hour_of column v }
{
    match unit_of(column) {
        TimeUnit::Microsecond => Ok(Micros(v).hour()),
        TimeUnit::Nanosecond => Ok(Nanos(v).hour()),
        TimeUnit::Day | TimeUnit::Neither => Err(ErrorKind::NoResultType),
    }
}

// Outside the calendar a Date is 8, a moment 6.
fn outside_calendar(column: PrimitiveType) -> ErrorKind
    ensures { result ≡ outside_calendar (unit_of column) }
{
    match unit_of(column) {
        TimeUnit::Day => ErrorKind::Overflow,
        TimeUnit::Microsecond | TimeUnit::Nanosecond => ErrorKind::DataInvalid,
        TimeUnit::Neither => ErrorKind::NoResultType,
    }
}

fn year_number(column: PrimitiveType, v: i64) -> Result<Option<i64>, ErrorKind>
    requires { in_type column v ≡ true }
    ensures { result ≡ by_calendar year_of column v }
{
    let day = day_of(column, v)?;
    let year = day.year().ok_or(outside_calendar(column))?;
    Ok(Some(i64::from(year)))
}

fn month_number(column: PrimitiveType, v: i64) -> Result<Option<i64>, ErrorKind>
    requires { in_type column v ≡ true }
    ensures { result ≡ by_calendar month_of column v }
{
    let day = day_of(column, v)?;
    let month = day.month().ok_or(outside_calendar(column))?;
    Ok(Some(i64::from(month)))
}

fn day_number(column: PrimitiveType, v: i64) -> Result<Option<i64>, ErrorKind>
    requires { in_type column v ≡ true }
    ensures { result ≡ day_number column v }
{
    let day = day_of(column, v)?;
    Ok(Some(i64::from(day.0)))
}

// An hour that 32 bits hold.
fn int_hour(hour: i64) -> Result<Option<i64>, ErrorKind>
    ensures { result ≡ int_hour hour }
{
    if PrimitiveType::Int.holds(hour) {
        Ok(Some(hour))
    } else {
        Err(ErrorKind::Overflow)
    }
}

fn hour_number(column: PrimitiveType, v: i64) -> Result<Option<i64>, ErrorKind>
    ensures { result ≡ hour_number column v }
{
    int_hour(hour_of(column, v)?)
}

// A present number, transformed.
// Inlined, since a Result of an Option is handed back through memory.
#[inline(always)]
#[tactic(auto, unfolding(crate::specs::Partition::transform_number))]
pub fn transform_literal(
    column: PrimitiveType,
    transform: Transform,
    v: i64,
) -> Result<Option<i64>, ErrorKind>
    requires { in_type column v ≡ true }
    ensures { result ≡ transform_number column transform v }
{
    match transform {
        Transform::Identity => Ok(Some(v)),
        Transform::Truncate(width) => truncate_number(column, v, width),
        Transform::Year => year_number(column, v),
        Transform::Month => month_number(column, v),
        Transform::Day => day_number(column, v),
        Transform::Hour => hour_number(column, v),
        Transform::Void => Ok(None),
        Transform::Unknown => Err(ErrorKind::FeatureUnsupported),
    }
}

// The partition value of a row of a whole-number or time column: of the number that it holds, or of none.
#[tactic(auto, unfolding(crate::specs::Partition::number_partition, crate::specs::Partition::partition))]
pub fn transform_number(
    column: PrimitiveType,
    transform: Transform,
    row: Option<i64>,
) -> Result<Option<i64>, ErrorKind>
    requires { OfPresent (InType column) row }
    ensures { result ≡ number_partition column transform row }
{
    if !is_known(transform) {
        return Err(ErrorKind::FeatureUnsupported);
    }
    match row {
        None => Ok(None),
        Some(v) => transform_literal(column, transform, v),
    }
}
