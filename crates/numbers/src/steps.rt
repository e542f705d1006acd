// A leaf with one number: the rows of document 01's table for numbers and times (src/spec/transform.rs).
ghost use Rattle.std.specs.Prelude.{true, ◌≡◌};
ghost use Rattle.std.proofs.Math.IntN.{suc_ℤ, pred_ℤ};
ghost use Rattle.values.specs.Types.{in_type};
ghost use Rattle.expr.specs.Operators.{by_arity};
ghost use Rattle.expr.specs.code.OperatorAnswers.{takes_one};
ghost use Rattle.projection.specs.Lifting.{lifted};
ghost use Rattle.projection.specs.Projection.{number_under};
ghost use Rattle.projection.specs.Steps.{mapped};
ghost use Rattle.projection.specs.code.OneLiteral.{one_test, lifts_for};
ghost use Rattle.numbers.specs.code.Boundaries.{number_leaf, neighbour, held, inclusive_boundary, strict_boundary, raise, at_boundary, strict_leaf};
ghost use Rattle.numbers.specs.code.Boundaries.{number_test, number_projected, Takes, OneAt, OneIn};
ghost use Rattle.projection.specs.declared.question.Question.TheVariants.{Inclusive};

use expr::operator::PredicateOperator;
use partition::number::transform_literal;
use projection::question::Question;
use values::datatypes::PrimitiveType;
use values::error::ErrorKind;
use values::transform::Transform;

// A test on the partition values: an operator with one number, or In or NotIn of a number and the one above it.
#[derive(Clone, Copy)]
pub enum NumberTest {
    One(PredicateOperator, i64),
    Two(PredicateOperator, i64),
}

// A number that is there, where it is of the column's type.
fn held(column: PrimitiveType, number: Option<i64>) -> Result<i64, ErrorKind>
    ensures { result ≡ held column number }
{
    number
        .filter(|n| column.holds(*n))
        .ok_or(ErrorKind::Overflow)
}

// L+1, and L−1 in the next function: 8 where it leaves the column's type.
#[tactic(auto, using(crate::proofs::Rows::one_above))]
fn try_increment_number(column: PrimitiveType, v: i64) -> Result<i64, ErrorKind>
    ensures { result ≡ neighbour column (suc_ℤ v) }
{
    held(column, v.checked_add(1))
}

#[tactic(auto, using(crate::proofs::Rows::one_below))]
fn try_decrement_number(column: PrimitiveType, v: i64) -> Result<i64, ErrorKind>
    ensures { result ≡ neighbour column (pred_ℤ v) }
{
    held(column, v.checked_sub(1))
}

// The operator that the row of an operator has, and the literal that is to be transformed: none where the row has no predicate. Inclusive, the Rust's
// `adjust_operator` with it: < L is ≤ L−1, and > L is ≥ L+1.
fn adjust_boundary(
    column: PrimitiveType,
    operator: PredicateOperator,
    l: i64,
) -> Result<Option<(PredicateOperator, i64)>, ErrorKind>
    ensures { result ≡ inclusive_boundary column (by_arity operator) l }
{
    match operator {
        PredicateOperator::LessThan => {
            let previous = try_decrement_number(column, l)?;
            Ok(Some((PredicateOperator::LessThanOrEq, previous)))
        }
        PredicateOperator::GreaterThan => {
            let next = try_increment_number(column, l)?;
            Ok(Some((PredicateOperator::GreaterThanOrEq, next)))
        }
        PredicateOperator::LessThanOrEq
        | PredicateOperator::GreaterThanOrEq
        | PredicateOperator::Eq
        | PredicateOperator::StartsWith
        | PredicateOperator::NotStartsWith => Ok(Some((operator, l))),
        _ => Ok(None),
    }
}

// Strict: ≤ L is < L+1, and ≥ L is > L−1.
fn strict_boundary(
    column: PrimitiveType,
    operator: PredicateOperator,
    l: i64,
) -> Result<Option<(PredicateOperator, i64)>, ErrorKind>
    ensures { result ≡ strict_boundary column (by_arity operator) l }
{
    match operator {
        PredicateOperator::LessThanOrEq => {
            let next = try_increment_number(column, l)?;
            Ok(Some((PredicateOperator::LessThan, next)))
        }
        PredicateOperator::GreaterThanOrEq => {
            let previous = try_decrement_number(column, l)?;
            Ok(Some((PredicateOperator::GreaterThan, previous)))
        }
        PredicateOperator::LessThan | PredicateOperator::GreaterThan | PredicateOperator::NotEq => {
            Ok(Some((operator, l)))
        }
        _ => Ok(None),
    }
}

// Whether document 01 lifts the transform of a column.
pub fn is_lifted(column: PrimitiveType, transform: Transform) -> bool
    ensures { result ≡ lifted column transform }
{
    match transform {
        Transform::Year | Transform::Month => true,
        Transform::Day => column == PrimitiveType::Timestamp,
        _ => false,
    }
}

// Whether a question lifts what it is answered: strict never does, but for older files.
pub fn lifts_for(question: Question, column: PrimitiveType, transform: Transform) -> bool
    ensures { result ≡ lifts_for question column transform }
{
    question != Question::Strict && is_lifted(column, transform)
}

// Lifting: with a negative number, ≤ uses the one above, and Eq becomes In of both. For older files so do > and NotEq, which becomes NotIn: no operator is of
// both.
fn adjust_time_projection(operator: PredicateOperator, t: i64) -> NumberTest
    requires { takes_one (by_arity operator) ≡ true }
    ensures projected { number_test result ≡ mapped raise (one_test (by_arity operator) t) }
    ensures one { Takes result }
{
    if 0 <= t {
        return NumberTest::One(operator, t);
    }
    match operator {
        PredicateOperator::LessThanOrEq | PredicateOperator::GreaterThan => {
            NumberTest::One(operator, t + 1)
        }
        PredicateOperator::Eq => NumberTest::Two(PredicateOperator::In, t),
        PredicateOperator::NotEq => NumberTest::Two(PredicateOperator::NotIn, t),
        _ => NumberTest::One(operator, t),
    }
}

// The operator with T of the literal, lifted where that is asked for.
fn project_boundary(
    column: PrimitiveType,
    transform: Transform,
    boundary: Option<(PredicateOperator, i64)>,
    lifts: bool,
) -> Result<Option<NumberTest>, ErrorKind>
    requires { OneAt column boundary }
    ensures projected { number_projected result ≡ at_boundary lifts (number_under column transform) boundary }
    ensures one { OneIn result }
{
    let Some((operator, l)) = boundary else {
        return Ok(None);
    };
    let t = transform_literal(column, transform, l)?.ok_or(ErrorKind::FeatureUnsupported)?;
    if lifts {
        Ok(Some(adjust_time_projection(operator, t)))
    } else {
        Ok(Some(NumberTest::One(operator, t)))
    }
}

// The inclusive projection.
fn project_binary_with_adjusted_boundary(
    column: PrimitiveType,
    transform: Transform,
    operator: PredicateOperator,
    l: i64,
) -> Result<Option<NumberTest>, ErrorKind>
    requires { in_type column l ≡ true }
    ensures projected { number_projected result ≡ number_leaf Inclusive column transform (by_arity operator) l }
    ensures one { OneIn result }
{
    let boundary = adjust_boundary(column, operator, l)?;
    project_boundary(column, transform, boundary, is_lifted(column, transform))
}

// The strict projection, raised for older files.
fn truncate_number_strict(
    column: PrimitiveType,
    transform: Transform,
    operator: PredicateOperator,
    l: i64,
    raised: bool,
) -> Result<Option<NumberTest>, ErrorKind>
    requires { in_type column l ≡ true }
    ensures projected { number_projected result ≡ strict_leaf raised column transform (by_arity operator) l }
    ensures one { OneIn result }
{
    let boundary = strict_boundary(column, operator, l)?;
    project_boundary(column, transform, boundary, raised)
}

// The projection of a leaf with one number, which is of the column's type: none where its row has no predicate.
pub fn project_number(
    question: Question,
    column: PrimitiveType,
    transform: Transform,
    operator: PredicateOperator,
    l: i64,
) -> Result<Option<NumberTest>, ErrorKind>
    requires { in_type column l ≡ true }
    ensures projected { number_projected result ≡ number_leaf question column transform (by_arity operator) l }
    ensures one { OneIn result }
{
    if question == Question::Inclusive {
        return project_binary_with_adjusted_boundary(column, transform, operator, l);
    }
    let raised = lifts_for(question, column, transform);
    truncate_number_strict(column, transform, operator, l, raised)
}
