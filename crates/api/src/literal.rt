// The transform of one value: the Rust's `transform_literal` (src/transform/mod.rs), over bytes.
ghost use Rattle.std.specs.Prelude.{◌≡◌, ◌≤◌, length};
ghost use Rattle.sheet.specs.Records.{record_size};
ghost use Rattle.answers.specs.Answers.{as_result};
ghost use Rattle.answers.specs.code.Settled.{Settled};
ghost use Rattle.api.specs.Routines.{transform_value, transform_answer, transform_leaves};

use answers::answer::{Answer, Refusal};
use answers::value::transform_value;
use sheet::records::RECORD_SIZE;
use values::datatypes::PrimitiveType;
use values::error::ErrorKind;
use values::transform::Transform;

// 3, and then what the value is answered, where the buffer has room for a record.
fn transform_checked(
    column_type: u8,
    transform: u8,
    width: u32,
    value: &[u8],
    out: &mut [u8],
) -> Result<Option<u16>, ErrorKind>
    requires { record_size ≤ length out.old }
    ensures { Settled (as_result (transform_value column_type transform width value.now)) out.old out.new result }
{
    let column = PrimitiveType::try_from(column_type)?;
    let transform = Transform::from_numbers(transform, width)?;
    transform_value(column, transform, value, out)
}

// The record of a value's partition value, written to the start of `out`: 2, then 3, then what the value is answered.
pub fn transform_literal(
    column_type: u8,
    transform: u8,
    width: u32,
    value: &[u8],
    out: &mut [u8],
) -> Answer
    ensures number { result ≡ transform_answer column_type transform width value.now out.old }
    ensures buffer { out.new ≡ transform_leaves column_type transform width value.now out.old }
{
    if out.len() < RECORD_SIZE {
        return Err(Refusal::BufferTooSmall);
    }
    let written = transform_checked(column_type, transform, width, value, out)?;
    Ok(written)
}
