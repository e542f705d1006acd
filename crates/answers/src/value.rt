// A row to be transformed: its partition value, written as a record.
ghost use Rattle.std.specs.Prelude.{◌≡◌, ◌≤◌, length, option_copied, Ok};
ghost use Rattle.partition.specs.ResultType.{result_type};
ghost use Rattle.sheet.specs.Records.{record_size};
ghost use Rattle.sheet.specs.laws.RecordLaws.{FitsRow};
ghost use Rattle.answers.specs.Answers.{transformed_row, as_result};
ghost use Rattle.answers.specs.code.Settled.{Settled};
ghost use Rattle.answers.specs.code.Leaves.{NumberColumn, BytesColumn};
ghost use Rattle.answers.specs.code.Rows.{number_row_in, number_value, bytes_value, value_answer};

use crate::answer::RECORD;
use partition::bytes::transform_bytes;
use partition::number::transform_number;
use partition::result::result_type;
use sheet::content::{number_in, value_encoded};
use sheet::value::read_value;
use values::datatypes::PrimitiveType;
use values::error::ErrorKind;
use values::transform::Transform;
use write::write::{put_missing, put_number, put_string};

// The number of a row, where it has a value.
fn number_row(column: PrimitiveType, row: Option<&[u8]>) -> Option<i64>
    requires number_column { NumberColumn column }
    requires fits_row { FitsRow column (option_copied row) }
    ensures { result ≡ number_row_in column (option_copied row.entry) }
{
    row.map(number_in)
}

fn transform_number_row(
    column: PrimitiveType,
    transform: Transform,
    to: PrimitiveType,
    row: Option<&[u8]>,
    out: &mut [u8],
) -> Result<Option<u16>, ErrorKind>
    requires number_column { NumberColumn column }
    requires fits_row { FitsRow column (option_copied row) }
    requires column_value { result_type transform column ≡ Ok to }
    requires record_size_in_bounds { record_size ≤ length out.old }
    ensures { Settled (number_value column transform to (number_row_in column (option_copied row.entry))) out.old out.new result }
{
    match transform_number(column, transform, number_row(column, row))? {
        None => put_missing(out),
        Some(t) => put_number(out, 0, 0, to, t),
    }
    Ok(Some(RECORD))
}

fn transform_bytes_row(
    column: PrimitiveType,
    transform: Transform,
    row: Option<&[u8]>,
    out: &mut [u8],
) -> Result<Option<u16>, ErrorKind>
    requires bytes_column { BytesColumn column }
    requires fits_row { FitsRow column (option_copied row) }
    requires record_size_in_bounds { record_size ≤ length out.old }
    ensures { Settled (bytes_value column transform (option_copied row.entry)) out.old out.new result }
{
    match transform_bytes(column, transform, row)? {
        None => put_missing(out),
        Some(t) => put_string(out, 0, 0, t),
    }
    Ok(Some(RECORD))
}

// 4, then 5, then the transform.
fn transform_row(
    column: PrimitiveType,
    transform: Transform,
    row: Option<&[u8]>,
    out: &mut [u8],
) -> Result<Option<u16>, ErrorKind>
    requires fits_row { FitsRow column (option_copied row) }
    requires record_size_in_bounds { record_size ≤ length out.old }
    ensures { Settled (as_result (transformed_row column transform (option_copied row.entry))) out.old out.new result }
{
    if !value_encoded(column, row) {
        return Err(ErrorKind::NotUtf8);
    }
    let to = result_type(transform, column)?;
    if column.is_bytes() {
        transform_bytes_row(column, transform, row, out)
    } else {
        transform_number_row(column, transform, to, row, out)
    }
}

// The value in a record.
pub fn transform_value(
    column: PrimitiveType,
    transform: Transform,
    value: &[u8],
    out: &mut [u8],
) -> Result<Option<u16>, ErrorKind>
    requires { record_size ≤ length out.old }
    ensures { Settled (value_answer column transform value.now) out.old out.new result }
{
    transform_row(column, transform, read_value(value, column)?, out)
}
