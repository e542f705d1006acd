// Writing records into a lent buffer: the head of a sheet, its literals, and a missing value.
ghost use Rattle.std.specs.Prelude.{true, ◌++◌, ◌≡◌, ◌+◌, ◌*◌, ◌≤◌, ◌<◌, length, drop, replicate};
ghost use Rattle.values.specs.Outcomes.{missing};
ghost use Rattle.values.specs.Types.{content_size, layout, type_number, in_type};
ghost use Rattle.values.specs.Words.{over, le_bytes, signed_bytes};
ghost use Rattle.expr.specs.Operators.{operator_number};
ghost use Rattle.sheet.specs.Records.{header_size, record_size};
ghost use Rattle.write.specs.Written.{head_record, literal_record, value_record, number_bytes};

use expr::operator::PredicateOperator;
use sheet::records::{CONTENT_SIZE, HEADER_SIZE, MISSING_MARK, RECORD_SIZE};
use values::datatypes::PrimitiveType;
use values::words::{put_i32, put_i64, put_u16, put_u32, put_u64, u16_at, u32_at, u64_at};

// n zeros from index `at` on.
pub fn put_zeros(d: &mut [u8], at: usize, n: usize)
    requires { at + n ≤ length d.old }
    ensures { d.new ≡ over at (replicate n 0) d.old }
{
    d[at..at + n].fill(0);
}

// Those from index `from` on, fewer than eight: four, then two, then one. A loop here would be compiled into a copy of any length.
fn put_few_bytes(d: &mut [u8], at: usize, bs: &[u8], from: usize)
    requires bs_in_bounds { at + length bs.now ≤ length d.old }
    requires from_in_bounds { from ≤ length bs.now }
    requires bs_len_bound { length bs.now < from + 8 }
    ensures { d.new ≡ over (at + from) (drop from bs.now) d.old }
{
    let mut i = from;
    if bs.len() - i >= 4 {
        put_u32(d, at + i, u32_at(bs, i));
        i += 4;
    }
    if bs.len() - i >= 2 {
        put_u16(d, at + i, u16_at(bs, i));
        i += 2;
    }
    if i < bs.len() {
        d[at + i] = bs[i];
    }
}

// Bytes from index `at` on: eight at a time while eight are left, then the few that are left. The library for C needs nothing from outside but `memset`, and
// `copy_from_slice` would need `memmove` too. Inlined, as a number's record is.
#[inline(always)]
pub fn put_bytes(d: &mut [u8], at: usize, bs: &[u8])
    requires { at + length bs.now ≤ length d.old }
    ensures { d.new ≡ over at bs.now d.old }
{
    let mut i = 0;
    while bs.len() - i >= 8 {
        put_u64(d, at + i, u64_at(bs, i));
        i += 8;
    }
    put_few_bytes(d, at, bs, i);
}

// What stands before a record's content: its next and its length.
fn put_header(d: &mut [u8], at: usize, next: u16, size: u16)
    requires { at + header_size ≤ length d.old }
    ensures { d.new ≡ over at (le_bytes 2 next ++ le_bytes 2 size) d.old }
{
    put_u16(d, at, next);
    put_u16(d, at + 2, size);
}

// The head of a sheet with transform 0 and width 0.
pub fn put_head(d: &mut [u8], next: u16, operator: PredicateOperator, column: PrimitiveType)
    requires { record_size ≤ length d.old }
    ensures { d.new ≡ over 0 (head_record next (operator_number operator) (type_number column)) d.old }
{
    put_header(d, 0, next, u16::from(operator));
    d[4] = u8::from(column);
    put_zeros(d, 5, RECORD_SIZE - 5);
}

// A byte string as record k, over zeros.
#[inline(always)]
#[tactic(auto, using(crate::specs::laws::WriteLaws::literal_writes))]
pub fn put_string(d: &mut [u8], k: usize, next: u16, bs: &[u8])
    requires k_in_bounds { record_size * (k + 1) ≤ length d.old }
    requires bs_len_bound { length bs.now ≤ content_size }
    ensures { d.new ≡ over (record_size * k) (literal_record next bs.now) d.old }
{
    let at = RECORD_SIZE * k;
    put_header(d, at, next, bs.len() as u16);
    put_zeros(d, at + HEADER_SIZE, CONTENT_SIZE);
    put_bytes(d, at + HEADER_SIZE, bs);
}

// A number of four bytes as record k, over zeros.
#[inline(always)]
fn put_int(d: &mut [u8], k: usize, next: u16, v: i32)
    requires { record_size * (k + 1) ≤ length d.old }
    ensures { d.new ≡ over (record_size * k) (literal_record next (signed_bytes 4 v)) d.old }
{
    let at = RECORD_SIZE * k;
    put_header(d, at, next, 4);
    put_zeros(d, at + HEADER_SIZE, CONTENT_SIZE);
    put_i32(d, at + HEADER_SIZE, v);
}

// A number of eight bytes as record k, over zeros.
#[inline(always)]
fn put_long(d: &mut [u8], k: usize, next: u16, v: i64)
    requires { record_size * (k + 1) ≤ length d.old }
    ensures { d.new ≡ over (record_size * k) (literal_record next (signed_bytes 8 v)) d.old }
{
    let at = RECORD_SIZE * k;
    put_header(d, at, next, 8);
    put_zeros(d, at + HEADER_SIZE, CONTENT_SIZE);
    put_i64(d, at + HEADER_SIZE, v);
}

// A number of a column's type as record k.
pub fn put_number(d: &mut [u8], k: usize, next: u16, column: PrimitiveType, v: i64)
    requires k_in_bounds { record_size * (k + 1) ≤ length d.old }
    requires v_value { in_type column v ≡ true }
    ensures { d.new ≡ over (record_size * k) (literal_record next (number_bytes (layout column) v)) d.old }
{
    match column {
        PrimitiveType::Int | PrimitiveType::Date => put_int(d, k, next, v as i32),
        _ => put_long(d, k, next, v),
    }
}

// A missing value as record 0.
pub fn put_missing(d: &mut [u8])
    requires { record_size ≤ length d.old }
    ensures { d.new ≡ over 0 (value_record missing) d.old }
{
    put_header(d, 0, 0, MISSING_MARK);
    put_zeros(d, HEADER_SIZE, CONTENT_SIZE);
}
