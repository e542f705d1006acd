// Contents of values: whether they are UTF-8 where that is asked for, and the numbers that they are.
ghost use Rattle.std.specs.Prelude.{not, ◌||◌, ◌⊎◌, ◌≡◌, length, option_copied};
ghost use Rattle.values.specs.Types.{same_type};
ghost use Rattle.values.specs.Words.{le_number, signed};
ghost use Rattle.values.specs.declared.datatypes.PrimitiveType.TheVariants.{String};
ghost use Rattle.sheet.specs.code.Contents.{row_utf8};

use values::datatypes::PrimitiveType;
use values::utf8::is_utf8;
use values::words::{i32_at, i64_at};

// Whether a value is UTF-8, where it is present.
pub fn value_utf8(value: Option<&[u8]>) -> bool
    ensures { result ≡ row_utf8 (option_copied value.entry) }
{
    value.is_none_or(is_utf8)
}

// Whether it is what the column asks for.
pub fn value_encoded(column: PrimitiveType, value: Option<&[u8]>) -> bool
    ensures { result ≡ (not (same_type column String) || row_utf8 (option_copied value.entry)) }
{
    column != PrimitiveType::String || value_utf8(value)
}

// The number that a value's bytes are.
pub fn number_in(value: &[u8]) -> i64
    requires { (length value.now ≡ 4) ⊎ (length value.now ≡ 8) }
    ensures { result ≡ signed (length value.now) (le_number value.now) }
{
    if value.len() == 4 {
        i32_at(value, 0) as i64
    } else {
        i64_at(value, 0)
    }
}
