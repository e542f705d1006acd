// A value record: missing, or present with a content.
ghost use Rattle.std.specs.Prelude.{◌≡◌};
ghost use Rattle.values.specs.Types.{layout};
ghost use Rattle.values.specs.code.Lent.{lent_value};
ghost use Rattle.sheet.specs.Records.{value};

use crate::literal::{content_of, is_literal};
use crate::records::{CONTENT_SIZE, HEADER_SIZE, MISSING_MARK, RECORD_SIZE, zeros};
use values::datatypes::PrimitiveType;
use values::error::ErrorKind;
use values::words::u16_at;

// The value in a record: none where it is missing, and else its content, a part of the record.
#[inline(always)]
pub fn read_value<'a>(v: &'a [u8], column: PrimitiveType) -> Result<Option<&'a [u8]>, ErrorKind>
    ensures { lent_value result ≡ value (layout column) v.now }
{
    if v.len() != RECORD_SIZE {
        return Err(ErrorKind::Malformed);
    }
    if u16_at(v, 0) != 0 {
        return Err(ErrorKind::Malformed);
    }
    if u16_at(v, 2) == MISSING_MARK {
        if zeros(v, HEADER_SIZE, CONTENT_SIZE) {
            return Ok(None);
        }
        return Err(ErrorKind::Malformed);
    }
    if is_literal(v, 0, column) {
        Ok(Some(content_of(v, 0)))
    } else {
        Err(ErrorKind::Malformed)
    }
}
