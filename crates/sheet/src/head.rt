// The head of a sheet: operator, column type and transform.
ghost use Rattle.std.specs.Prelude.{◌≡◌, ◌≤◌, length};
ghost use Rattle.sheet.specs.Records.{record_size};
ghost use Rattle.sheet.specs.Sheets.{fields};
ghost use Rattle.sheet.specs.code.ReadAnswers.{fields_read, head_in};

use crate::records::{RECORD_SIZE, zeros};
use expr::operator::PredicateOperator;
use values::datatypes::PrimitiveType;
use values::error::ErrorKind;
use values::transform::Transform;
use values::words::{u16_at, u32_at};

// The bytes of the fields, with the two among them that are reserved; the rest of the record is reserved too.
pub const HEAD_SIZE: usize = 12;

// What a head says beside its next and its operator.
#[derive(Clone, Copy)]
pub struct Fields {
    pub column: PrimitiveType,
    pub transform: Transform,
}

pub fn read_fields(s: &[u8]) -> Result<Fields, ErrorKind>
    requires { record_size ≤ length s.now }
    ensures { result ≡ fields_read (fields s.now) }
{
    let column = PrimitiveType::try_from(s[4])?;
    let transform = Transform::from_numbers(s[5], u32_at(s, 8))?;
    if zeros(s, 6, 2) && zeros(s, HEAD_SIZE, RECORD_SIZE - HEAD_SIZE) {
        Ok(Fields { column, transform })
    } else {
        Err(ErrorKind::Malformed)
    }
}

#[derive(Clone, Copy)]
pub struct Head {
    pub operator: PredicateOperator,
    pub column: PrimitiveType,
    pub transform: Transform,
}

pub fn read_head(s: &[u8]) -> Result<Head, ErrorKind>
    requires { record_size ≤ length s.now }
    ensures { result ≡ head_in s.now }
{
    let operator = PredicateOperator::try_from(u16_at(s, 2))?;
    let Fields { column, transform } = read_fields(s)?;
    Ok(Head {
        operator,
        column,
        transform,
    })
}
