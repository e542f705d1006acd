// Literals by the numbers of their records: whether one is there, its content, and the number that it is.
ghost use Rattle.std.specs.Prelude.{◌≡◌, ◌+◌, ◌*◌, ◌≤◌, length};
ghost use Rattle.values.specs.Types.{layout, content_size};
ghost use Rattle.values.specs.Words.{field};
ghost use Rattle.sheet.specs.Records.{header_size, record_size, length_in, content, record_at};
ghost use Rattle.sheet.specs.code.Placed.{content_at, number_at, InLayout};
ghost use Rattle.sheet.specs.code.ReadAnswers.{is_ok};

use crate::records::{CONTENT_SIZE, HEADER_SIZE, RECORD_SIZE, length_fits, zeros};
use values::datatypes::PrimitiveType;
use values::words::{i32_at, i64_at, u16_at};

// Whether record k holds a literal of the type.
pub fn is_literal(s: &[u8], k: usize, column: PrimitiveType) -> bool
    requires { record_size * (k + 1) ≤ length s.now }
    ensures { result ≡ is_ok (content (layout column) (record_at s.now k)) }
{
    let at = RECORD_SIZE * k;
    // `&*s` lets the compiler hand on address and length in registers.
    let n = u16_at(&*s, at + 2) as usize;
    if !length_fits(column, n) {
        return false;
    }
    // Most numbers have eight bytes: a length that is known is tested without a loop.
    if n == 8 {
        return zeros(&*s, at + HEADER_SIZE + 8, CONTENT_SIZE - 8);
    }
    zeros(&*s, at + HEADER_SIZE + n, CONTENT_SIZE - n)
}

// The content of record k, a part of the sheet.
pub fn content_of<'a>(s: &'a [u8], k: usize) -> &'a [u8]
    requires k_in_bounds { record_size * (k + 1) ≤ length s.now }
    requires k_bound { length_in (record_at s.now k) ≤ content_size }
    ensures { result.now ≡ content_at s.now k }
{
    let at = RECORD_SIZE * k;
    let n = u16_at(s, at + 2) as usize;
    let from = at + HEADER_SIZE;
    let to = from + n;
    &s[from..to]
}

// The first n bytes of record k's content.
pub fn beginning_of<'a>(s: &'a [u8], k: usize, n: usize) -> &'a [u8]
    requires k_in_bounds { record_size * (k + 1) ≤ length s.now }
    requires n_le_content_size { n ≤ content_size }
    ensures { result.now ≡ field header_size n (record_at s.now k) }
{
    let from = RECORD_SIZE * k + HEADER_SIZE;
    let to = from + n;
    &s[from..to]
}

// The number in record k, and 0 where the type has no numbers.
pub fn number_of(s: &[u8], k: usize, column: PrimitiveType) -> i64
    requires { record_size * (k + 1) ≤ length s.now }
    ensures is { result ≡ number_at (layout column) s.now k }
    ensures ranged { InLayout (layout column) result }
{
    let at = RECORD_SIZE * k + HEADER_SIZE;
    match column {
        PrimitiveType::Int => i32_at(s, at) as i64,
        PrimitiveType::Long => i64_at(s, at),
        PrimitiveType::Date => i32_at(s, at) as i64,
        PrimitiveType::Time => i64_at(s, at),
        PrimitiveType::Timestamp => i64_at(s, at),
        PrimitiveType::Timestamptz => i64_at(s, at),
        PrimitiveType::TimestampNs => i64_at(s, at),
        PrimitiveType::TimestamptzNs => i64_at(s, at),
        PrimitiveType::String => 0,
        PrimitiveType::Binary => 0,
    }
}
