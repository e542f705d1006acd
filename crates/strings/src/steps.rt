// A leaf with one String or Binary under Truncate (src/spec/transform.rs).
ghost use Rattle.std.specs.Prelude.{true, ◌≡◌, length};
ghost use Rattle.values.specs.declared.transform.Transform.TheVariants.{Truncate};
ghost use Rattle.expr.specs.Operators.{by_arity};
ghost use Rattle.expr.specs.code.OperatorAnswers.{takes_one};
ghost use Rattle.projection.specs.Projection.{length_of};
ghost use Rattle.strings.specs.code.Prefixes.{bytes_leaf, bytes_projected, NoLonger, OneLiteral, truncated_leaf, within_leaf, cut_leaf};
ghost use Rattle.projection.specs.declared.question.Question.TheVariants.{Inclusive, Strict};

use expr::operator::PredicateOperator;
use partition::bytes::truncate_bytes;
use projection::question::Question;
use std::cmp::Ordering;
use values::datatypes::PrimitiveType;
use values::utf8::count_code_points;

// A String's length is in code points, a Binary's in bytes.
fn literal_len(column: PrimitiveType, l: &[u8]) -> usize
    ensures { result ≡ length_of column l.now }
{
    if column == PrimitiveType::String {
        count_code_points(l)
    } else {
        l.len()
    }
}

// What such a leaf comes to is an operator with the literal or a beginning of it, or none. Truncate refuses no byte string.

// An operator with T of the literal.
#[tactic(auto, using(crate::proofs::Cut::cut_is, crate::proofs::Cut::no_longer))]
fn truncate_array(
    column: PrimitiveType,
    width: u32,
    operator: PredicateOperator,
    l: &[u8],
) -> Option<(PredicateOperator, &[u8])>
    requires { takes_one (by_arity operator) ≡ true }
    ensures says { bytes_projected result ≡ truncated_leaf column width (by_arity operator) l.now }
    ensures short { NoLonger (length l.now) result }
    ensures one { OneLiteral result }
{
    Some((operator, truncate_bytes(column, width, l)))
}

// A literal as long as the width has `whole`, a shorter one `operator`, and a longer one none.
fn within_width(
    column: PrimitiveType,
    width: u32,
    operator: PredicateOperator,
    whole: PredicateOperator,
    l: &[u8],
) -> Option<(PredicateOperator, &[u8])>
    requires shorter { takes_one (by_arity operator) ≡ true }
    requires equal { takes_one (by_arity whole) ≡ true }
    ensures says { bytes_projected result ≡ within_leaf column width (by_arity operator) (by_arity whole) l.now }
    ensures short { NoLonger (length l.now) result }
    ensures one { OneLiteral result }
{
    match literal_len(column, l).cmp(&(width as usize)) {
        Ordering::Less => Some((operator, l)),
        Ordering::Equal => Some((whole, l)),
        Ordering::Greater => None,
    }
}

// The same, but a longer literal has T with `operator`.
fn cut_to_width(
    column: PrimitiveType,
    width: u32,
    operator: PredicateOperator,
    whole: PredicateOperator,
    l: &[u8],
) -> Option<(PredicateOperator, &[u8])>
    requires shorter { takes_one (by_arity operator) ≡ true }
    requires equal { takes_one (by_arity whole) ≡ true }
    ensures says { bytes_projected result ≡ cut_leaf column width (by_arity operator) (by_arity whole) l.now }
    ensures short { NoLonger (length l.now) result }
    ensures one { OneLiteral result }
{
    within_width(column, width, operator, whole, l).or_else(|| truncate_array(
        column, width, operator, l,
    ))
}

// The inclusive projection. A Binary keeps StartsWith with T of the literal, and NotStartsWith up to the width; `_` has a longer one too.
fn project_array(
    column: PrimitiveType,
    width: u32,
    operator: PredicateOperator,
    l: &[u8],
) -> Option<(PredicateOperator, &[u8])>
    ensures says { bytes_projected result ≡ bytes_leaf Inclusive column (Truncate width) (by_arity operator) l.now }
    ensures short { NoLonger (length l.now) result }
    ensures one { OneLiteral result }
{
    let is_string = column == PrimitiveType::String;
    match operator {
        PredicateOperator::LessThan => {
            truncate_array(column, width, PredicateOperator::LessThanOrEq, l)
        }
        PredicateOperator::GreaterThan => {
            truncate_array(column, width, PredicateOperator::GreaterThanOrEq, l)
        }
        PredicateOperator::LessThanOrEq
        | PredicateOperator::GreaterThanOrEq
        | PredicateOperator::Eq => { truncate_array(column, width, operator, l) }
        PredicateOperator::StartsWith if is_string => {
            cut_to_width(column, width, operator, PredicateOperator::Eq, l)
        }
        PredicateOperator::StartsWith => truncate_array(column, width, operator, l),
        PredicateOperator::NotStartsWith if is_string => {
            within_width(column, width, operator, PredicateOperator::NotEq, l)
        }
        PredicateOperator::NotStartsWith if literal_len(column, l) <= width as usize => {
            truncate_array(column, width, operator, l)
        }
        _ => None,
    }
}

// The strict projection.
fn truncate_array_strict(
    column: PrimitiveType,
    width: u32,
    operator: PredicateOperator,
    l: &[u8],
) -> Option<(PredicateOperator, &[u8])>
    ensures says { bytes_projected result ≡ bytes_leaf Strict column (Truncate width) (by_arity operator) l.now }
    ensures short { NoLonger (length l.now) result }
    ensures one { OneLiteral result }
{
    match operator {
        PredicateOperator::LessThanOrEq => {
            truncate_array(column, width, PredicateOperator::LessThan, l)
        }
        PredicateOperator::GreaterThanOrEq => {
            truncate_array(column, width, PredicateOperator::GreaterThan, l)
        }
        PredicateOperator::LessThan | PredicateOperator::GreaterThan | PredicateOperator::NotEq => {
            truncate_array(column, width, operator, l)
        }
        PredicateOperator::StartsWith => {
            within_width(column, width, operator, PredicateOperator::Eq, l)
        }
        PredicateOperator::NotStartsWith => {
            cut_to_width(column, width, operator, PredicateOperator::NotEq, l)
        }
        _ => None,
    }
}

// The projection of a leaf with one String or Binary: an operator with the literal or a beginning of it, or none. No transform of theirs is lifted: for
// older files it is the strict one.
pub fn project_bytes(
    question: Question,
    column: PrimitiveType,
    width: u32,
    operator: PredicateOperator,
    l: &[u8],
) -> Option<(PredicateOperator, &[u8])>
    ensures says { bytes_projected result ≡ bytes_leaf question column (Truncate width) (by_arity operator) l.now }
    ensures short { NoLonger (length l.now) result }
    ensures one { OneLiteral result }
{
    if question == Question::Inclusive {
        project_array(column, width, operator, l)
    } else {
        truncate_array_strict(column, width, operator, l)
    }
}
