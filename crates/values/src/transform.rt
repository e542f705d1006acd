// The eight transforms of the base (src/spec/transform.rs), with document 01's numbers.
ghost use Rattle.std.specs.Prelude.{◌≡◌};
ghost use Rattle.values.specs.Transforms.{transform_of};

use crate::error::ErrorKind;

#[derive(Clone, Copy, PartialEq, Eq)]
pub enum Transform {
    Identity,
    Truncate(u32),
    Year,
    Month,
    Day,
    Hour,
    Void,
    Unknown,
}

// The transform with a number of document 01's list, of width 0.
fn without_width(number: u8) -> Result<Transform, ErrorKind>
    ensures { result ≡ transform_of number 0 }
{
    match number {
        0 => Ok(Transform::Identity),
        1 => Ok(Transform::Truncate(0)),
        2 => Ok(Transform::Year),
        3 => Ok(Transform::Month),
        4 => Ok(Transform::Day),
        5 => Ok(Transform::Hour),
        6 => Ok(Transform::Void),
        7 => Ok(Transform::Unknown),
        _ => Err(ErrorKind::Malformed),
    }
}

impl Transform {
    // The transform that a number and a width name: a width stands with Truncate only.
    pub fn from_numbers(number: u8, width: u32) -> Result<Transform, ErrorKind>
        ensures { result ≡ transform_of number width }
    {
        if number == 1 {
            return Ok(Transform::Truncate(width));
        }
        if width == 0 {
            return without_width(number);
        }
        Err(ErrorKind::Malformed)
    }
}
