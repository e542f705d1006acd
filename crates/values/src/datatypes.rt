// The ten column types (src/spec/datatypes.rs), with document 01's numbers.
ghost use Rattle.std.specs.Prelude.{◌≡◌};
ghost use Rattle.values.specs.Numbered.{find};
ghost use Rattle.values.specs.Types.{types, type_number, layout, in_range, in_type};
ghost use Rattle.values.specs.code.ByteTypes.{is_bytes};

use crate::error::ErrorKind;

#[derive(Clone, Copy, PartialEq, Eq)]
pub enum PrimitiveType {
    Int = 1,
    Long,
    Date,
    Time,
    Timestamp,
    Timestamptz,
    TimestampNs,
    TimestamptzNs,
    String,
    Binary,
}

// Whether a number is one of 32 bits.
fn fits_i32(number: i64) -> bool
    ensures { result ≡ in_range 4 number }
{
    i32::try_from(number).is_ok()
}

// The type with a number of document 01's list.
impl TryFrom<u8> for PrimitiveType {
    type Error = ErrorKind;

    ghost try_from_gives = { λ n found. found ≡ find types n };

    fn try_from(number: u8) -> Result<PrimitiveType, ErrorKind> {
        match number {
            1 => Ok(PrimitiveType::Int),
            2 => Ok(PrimitiveType::Long),
            3 => Ok(PrimitiveType::Date),
            4 => Ok(PrimitiveType::Time),
            5 => Ok(PrimitiveType::Timestamp),
            6 => Ok(PrimitiveType::Timestamptz),
            7 => Ok(PrimitiveType::TimestampNs),
            8 => Ok(PrimitiveType::TimestamptzNs),
            9 => Ok(PrimitiveType::String),
            10 => Ok(PrimitiveType::Binary),
            _ => Err(ErrorKind::Malformed),
        }
    }
}

impl From<PrimitiveType> for u8 {
    ghost from_gives = { λ column n. n ≡ type_number column };

    fn from(column: PrimitiveType) -> u8 {
        column as u8
    }
}

impl PrimitiveType {
    // Whether a value is a byte string, and not a number.
    pub fn is_bytes(self) -> bool
        ensures { result ≡ is_bytes (layout self) }
    {
        matches!(self, PrimitiveType::String | PrimitiveType::Binary)
    }

    // Whether a number is one of the type.
    pub fn holds(self, number: i64) -> bool
        ensures { result ≡ in_type self number }
    {
        match self {
            PrimitiveType::Int => fits_i32(number),
            PrimitiveType::Long => true,
            PrimitiveType::Date => fits_i32(number),
            PrimitiveType::Time => true,
            PrimitiveType::Timestamp => true,
            PrimitiveType::Timestamptz => true,
            PrimitiveType::TimestampNs => true,
            PrimitiveType::TimestamptzNs => true,
            PrimitiveType::String => false,
            PrimitiveType::Binary => false,
        }
    }
}
