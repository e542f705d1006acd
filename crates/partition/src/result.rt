// The type of a transform's values, and which transforms are known: `result_type` (src/spec/transform.rs).
ghost use Rattle.std.specs.Prelude.{◌≡◌};
ghost use Rattle.partition.specs.ResultType.{is_one_of, truncatable, with_days, with_hours, result_type};
ghost use Rattle.partition.specs.Partition.{known};

use values::datatypes::PrimitiveType;
use values::error::ErrorKind;
use values::transform::Transform;

fn truncates(column: PrimitiveType) -> bool
    ensures { result ≡ is_one_of column truncatable }
{
    matches!(
        column,
        PrimitiveType::Int | PrimitiveType::Long | PrimitiveType::String | PrimitiveType::Binary
    )
}

// Whether a column's values lie in a day of the calendar; below, in an hour of one.
fn has_days(column: PrimitiveType) -> bool
    ensures { result ≡ is_one_of column with_days }
{
    column == PrimitiveType::Date || has_hours(column)
}

fn has_hours(column: PrimitiveType) -> bool
    ensures { result ≡ is_one_of column with_hours }
{
    matches!(
        column,
        PrimitiveType::Timestamp
            | PrimitiveType::Timestamptz
            | PrimitiveType::TimestampNs
            | PrimitiveType::TimestamptzNs
    )
}

// The type of a transform's values.
#[tactic(auto, using(crate::proofs::Listed::listed), unfolding(crate::specs::ResultType::result_type))]
pub fn result_type(transform: Transform, column: PrimitiveType) -> Result<PrimitiveType, ErrorKind>
    ensures { result ≡ result_type transform column }
{
    match transform {
        Transform::Identity | Transform::Void => Ok(column),
        Transform::Truncate(_) if truncates(column) => Ok(column),
        Transform::Year | Transform::Month if has_days(column) => Ok(PrimitiveType::Int),
        Transform::Day if has_days(column) => Ok(PrimitiveType::Date),
        Transform::Hour if has_hours(column) => Ok(PrimitiveType::Int),
        Transform::Unknown => Ok(PrimitiveType::String),
        _ => Err(ErrorKind::NoResultType),
    }
}

pub fn is_known(transform: Transform) -> bool
    ensures { result ≡ known transform }
{
    transform != Transform::Unknown
}
