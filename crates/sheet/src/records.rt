// Records: their sizes, how many a sheet has, runs of zero bytes, and the lengths that a type allows.
ghost use Rattle.std.specs.Prelude.{◌≡◌, ◌+◌, ◌≤◌, ◌<◌, length};
ghost use Rattle.values.specs.Types.{layout, fits};
ghost use Rattle.values.specs.Words.{zero_at};

use expr::operator::PROJECT_LIMIT;
use values::datatypes::PrimitiveType;
use values::words::{u16_at, u32_at, u64_at};

// The sizes of a record and of its parts, in bytes.
pub const HEADER_SIZE: usize = 4;

pub const CONTENT_SIZE: usize = 60;

pub const RECORD_SIZE: usize = HEADER_SIZE + CONTENT_SIZE;

// The length that marks a value as missing.
pub const MISSING_MARK: u16 = 65535;

// The most records of a sheet to be projected: its head and its literals.
pub const PROJECT_RECORDS: usize = PROJECT_LIMIT + 1;

// Fewer than eight bytes: four, then two, then one, with no loop.
fn few_zeros(s: &[u8], at: usize, n: usize) -> bool
    requires n_in_bounds { at + n ≤ length s.now }
    requires n_bound { n < 8 }
    ensures { result ≡ zero_at at n s.now }
{
    let mut i = 0;
    if n >= 4 {
        if u32_at(s, at + i) != 0 {
            return false;
        }
        i += 4;
    }
    if n % 4 >= 2 {
        if u16_at(s, at + i) != 0 {
            return false;
        }
        i += 2;
    }
    if i < n {
        return s[at + i] == 0;
    }
    true
}

// Whether the n bytes from `at` on are zero: the first eight, then eight at a time, from where a multiple of eight is left.
// Words are gathered and tested once, which a processor does several at a time.
pub fn zeros(s: &[u8], at: usize, n: usize) -> bool
    requires { at + n ≤ length s.now }
    ensures { result ≡ zero_at at n s.now }
{
    if n < 8 {
        return few_zeros(s, at, n);
    }
    let mut all = u64_at(s, at);
    let mut i = n % 8;
    while i < n {
        all |= u64_at(s, at + i);
        i += 8;
    }
    all == 0
}

// Whether a content of n bytes can be a value of the type.
pub fn length_fits(column: PrimitiveType, n: usize) -> bool
    ensures { result ≡ fits (layout column) n }
{
    match column {
        PrimitiveType::Int => n == 4,
        PrimitiveType::Long => n == 8,
        PrimitiveType::Date => n == 4,
        PrimitiveType::Time => n == 8,
        PrimitiveType::Timestamp => n == 8,
        PrimitiveType::Timestamptz => n == 8,
        PrimitiveType::TimestampNs => n == 8,
        PrimitiveType::TimestamptzNs => n == 8,
        PrimitiveType::String => n <= CONTENT_SIZE,
        PrimitiveType::Binary => n <= CONTENT_SIZE,
    }
}
