// Answer sheets, whole: a head and its literals in records 1, 2, ..
ghost use Rattle.std.specs.Prelude.{true, cond, [], ◌∷◌, map, ◌≡◌, ◌+◌, ◌*◌, ◌≤◌, ltb, ℕ, List, ℤ, length};
ghost use Rattle.values.specs.code.Places.{AllOf};
ghost use Rattle.values.specs.Types.{content_size, layout, in_type};
ghost use Rattle.values.specs.Words.{over};
ghost use Rattle.expr.specs.Operators.{holds_limit};
ghost use Rattle.sheet.specs.Records.{record_size};
ghost use Rattle.write.specs.Written.{answer_bytes, number_bytes};
ghost use Rattle.values.specs.code.Lent.{each_now};
ghost use Rattle.sheet.specs.code.SheetAnswers.{parts_of};

use crate::write::{put_head, put_number, put_string};
use expr::operator::PredicateOperator;
use sheet::parts::ContentParts;
use values::datatypes::PrimitiveType;

// The head alone.
pub fn put_no_literal(d: &mut [u8], operator: PredicateOperator, to: PrimitiveType)
    requires { record_size ≤ length d.old }
    ensures { d.new ≡ over 0 (answer_bytes operator to []) d.old }
{
    put_head(d, 0, operator, to);
}

// The number of the record after record k, where n literals are written; 0 after the last.
fn next_after(k: usize, n: usize) -> u16
    requires { n ≤ holds_limit }
    ensures { result ≡ cond (ltb k n) (k + 1) 0 }
{
    if k < n { (k + 1) as u16 } else { 0 }
}

// The head and numbers. Inlined, so that a list whose length is known is written without a loop.
#[inline(always)]
pub fn put_numbers(d: &mut [u8], operator: PredicateOperator, to: PrimitiveType, literals: &[i64])
    requires literals_in_bounds { record_size * (length literals.now + 1) ≤ length d.old }
    requires literals_le_holds_limit { length literals.now ≤ holds_limit }
    requires literals_fit { AllOf (λ (z : ℤ). in_type to z ≡ true) literals.now }
    ensures { d.new ≡ over 0 (answer_bytes operator to (map (number_bytes (layout to)) literals.now)) d.old }
{
    let n = literals.len();
    put_head(d, next_after(0, n), operator, to);
    for (i, v) in literals.iter().enumerate() {
        put_number(d, i + 1, next_after(i + 1, n), to, *v);
    }
}

// The head and byte strings. Inlined, as for numbers.
#[inline(always)]
pub fn put_strings(d: &mut [u8], operator: PredicateOperator, to: PrimitiveType, literals: &[&[u8]])
    requires literals_in_bounds { record_size * (length literals.now + 1) ≤ length d.old }
    requires literals_le_holds_limit { length literals.now ≤ holds_limit }
    requires literals_fit { AllOf (λ (bs : List ℕ). length bs ≤ content_size) (each_now literals.now) }
    ensures { d.new ≡ over 0 (answer_bytes operator to (each_now literals.now)) d.old }
{
    let n = literals.len();
    put_head(d, next_after(0, n), operator, to);
    for (i, bs) in literals.iter().enumerate() {
        put_string(d, i + 1, next_after(i + 1, n), *bs);
    }
}

// The head and beginnings of contents of a sheet.
pub fn put_parts(d: &mut [u8], operator: PredicateOperator, to: PrimitiveType, parts: ContentParts)
    requires parts_in_bounds { record_size * (length parts.records.now + 1) ≤ length d.old }
    requires parts_le_holds_limit { length parts.records.now ≤ holds_limit }
    ensures { d.new ≡ over 0 (answer_bytes operator to (parts_of parts.entry)) d.old }
{
    let n = parts.len();
    put_head(d, next_after(0, n), operator, to);
    for i in 0..n {
        put_string(d, i + 1, next_after(i + 1, n), parts.content(i));
    }
}
