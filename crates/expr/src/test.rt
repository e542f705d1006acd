// Tests of a missing value, and of a present one against one literal: a part of the papers' holds-test, which the Rust does not have.
ghost use Rattle.std.specs.Prelude.{◌≡◌};
ghost use Rattle.expr.specs.Operators.{by_arity};
ghost use Rattle.expr.specs.Holds.{number_tests, bytes_tests, missing_meets};
ghost use Rattle.expr.specs.code.OperatorAnswers.{meets_one, asks_for};

use crate::operator::PredicateOperator;
use std::cmp::Ordering;
use values::order::{compare_bytes, starts_with};

// Whether a missing value meets an operator, whatever its literals: it counts as different from each.
pub fn missing_holds(operator: PredicateOperator) -> bool
    ensures { result ≡ missing_meets (by_arity operator) }
{
    match operator {
        PredicateOperator::IsNull => true,
        PredicateOperator::NotNull => false,
        PredicateOperator::IsNan => false,
        PredicateOperator::NotNan => false,
        PredicateOperator::LessThan => false,
        PredicateOperator::LessThanOrEq => false,
        PredicateOperator::GreaterThan => false,
        PredicateOperator::GreaterThanOrEq => false,
        PredicateOperator::Eq => false,
        PredicateOperator::NotEq => true,
        PredicateOperator::StartsWith => false,
        PredicateOperator::NotStartsWith => true,
        PredicateOperator::In => false,
        PredicateOperator::NotIn => true,
    }
}

// Whether a number meets an operator that takes one literal; no other operator is met.
pub fn number_meets(operator: PredicateOperator, v: i64, l: i64) -> bool
    ensures { result ≡ meets_one number_tests (by_arity operator) v l }
{
    match operator {
        PredicateOperator::IsNull => false,
        PredicateOperator::NotNull => false,
        PredicateOperator::IsNan => false,
        PredicateOperator::NotNan => false,
        PredicateOperator::LessThan => v < l,
        PredicateOperator::LessThanOrEq => v <= l,
        PredicateOperator::GreaterThan => v > l,
        PredicateOperator::GreaterThanOrEq => v >= l,
        PredicateOperator::Eq => v == l,
        PredicateOperator::NotEq => v != l,
        PredicateOperator::StartsWith => false,
        PredicateOperator::NotStartsWith => true,
        PredicateOperator::In => false,
        PredicateOperator::NotIn => false,
    }
}

// Whether an order of a value to a literal is one that a comparison asks for; no other operator asks for one.
fn ordering_meets(operator: PredicateOperator, o: Ordering) -> bool
    ensures { result ≡ asks_for (by_arity operator) o }
{
    match operator {
        PredicateOperator::LessThan => o.is_lt(),
        PredicateOperator::LessThanOrEq => o.is_le(),
        PredicateOperator::GreaterThan => o.is_gt(),
        PredicateOperator::GreaterThanOrEq => o.is_ge(),
        PredicateOperator::Eq => o.is_eq(),
        PredicateOperator::NotEq => o.is_ne(),
        _ => false,
    }
}

// Whether a byte string meets an operator that takes one literal; no other operator is met.
pub fn bytes_meets(operator: PredicateOperator, v: &[u8], l: &[u8]) -> bool
    ensures { result ≡ meets_one bytes_tests (by_arity operator) v.now l.now }
{
    match operator {
        PredicateOperator::StartsWith => starts_with(v, l),
        PredicateOperator::NotStartsWith => !starts_with(v, l),
        _ => ordering_meets(operator, compare_bytes(v, l)),
    }
}
