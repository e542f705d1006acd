// The transform of a String or Binary: a choice over `Transform` where the Rust has a boxed trait object (src/transform/mod.rs).
ghost use Rattle.std.specs.Prelude.{◌≡◌, option_copied};
ghost use Rattle.partition.specs.Partition.{truncate_bytes, transform_bytes, bytes_partition};
ghost use Rattle.values.specs.code.Lent.{lent_value};

use crate::result::is_known;
use transform::truncate::{truncate_binary, truncate_str};
use values::datatypes::PrimitiveType;
use values::error::ErrorKind;
use values::transform::Transform;

// A String's first code points, a Binary's first bytes: a part of what was lent.
pub fn truncate_bytes<'a>(column: PrimitiveType, width: u32, s: &'a [u8]) -> &'a [u8]
    ensures { result.now ≡ truncate_bytes column width s.now }
{
    if column == PrimitiveType::String {
        truncate_str(s, width)
    } else {
        truncate_binary(s, width)
    }
}

// A present String or Binary, transformed: to a part of what was lent, where it is not missing.
#[tactic(auto, unfolding(crate::specs::Partition::transform_bytes))]
pub fn transform_bytes_literal<'a>(
    column: PrimitiveType,
    transform: Transform,
    s: &'a [u8],
) -> Result<Option<&'a [u8]>, ErrorKind>
    ensures { lent_value result ≡ transform_bytes column transform s.now }
{
    match transform {
        Transform::Identity => Ok(Some(s)),
        Transform::Truncate(width) => Ok(Some(truncate_bytes(column, width, s))),
        Transform::Year | Transform::Month | Transform::Day | Transform::Hour => Err(
            ErrorKind::NoResultType,
        ),
        Transform::Void => Ok(None),
        Transform::Unknown => Err(ErrorKind::FeatureUnsupported),
    }
}

// The partition value of a row of a String or Binary column: of the bytes that it holds, or of none.
#[tactic(auto, unfolding(crate::specs::Partition::bytes_partition, crate::specs::Partition::partition))]
pub fn transform_bytes<'a>(
    column: PrimitiveType,
    transform: Transform,
    row: Option<&'a [u8]>,
) -> Result<Option<&'a [u8]>, ErrorKind>
    ensures { lent_value result ≡ bytes_partition column transform (option_copied row.entry) }
{
    if !is_known(transform) {
        return Err(ErrorKind::FeatureUnsupported);
    }
    match row {
        None => Ok(None),
        Some(s) => transform_bytes_literal(column, transform, s),
    }
}
