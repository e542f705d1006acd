// Whether some number between two ends meets an operator: in time that does not grow with their distance.
ghost use Rattle.std.specs.Prelude.{◌≡◌, ◌≤ℤ◌};
ghost use Rattle.values.specs.SomeEvery.{some, every};
ghost use Rattle.values.specs.Ascending.{elem};
ghost use Rattle.values.specs.Order.{compare_numbers};
ghost use Rattle.expr.specs.Holds.{number_tests, present_meets};
ghost use Rattle.expr.specs.Operators.{by_arity};
ghost use Rattle.expr.specs.code.OperatorAnswers.{meets_one};
ghost use Rattle.sheet.specs.code.SheetAnswers.{numbers_of};
ghost use Rattle.meets.specs.code.Leaves.{number_leaf};
ghost use Rattle.summary.specs.EndValues.{lies_in};
ghost use Rattle.summary.specs.Summaries.{◌to◌};
ghost use Rattle.ends.specs.Between.{between};

use expr::operator::PredicateOperator;
use expr::test::number_meets;
use meets::literals::number_among;
use sheet::literals::Literals;
use sheet::sheet::Sheet;

// Whether a number lies between the ends.
#[tactic(auto, using(values::specs::laws::SignedLaws::back, crate::specs::laws::BetweenLaws::lies_iff, values::specs::laws::IntLaws::ints))]
fn lies_between(low: i64, high: i64, v: i64) -> bool
    ensures { result ≡ lies_in compare_numbers (low to high) v }
{
    low <= v && v <= high
}

// Whether one of the literals lies between the ends.
#[tactic(auto, using(values::specs::laws::SignedLaws::back, std::proofs::lemmas::Grind::common_steps))]
fn literal_between(literals: Literals, low: i64, high: i64) -> bool
    ensures { result ≡ some (lies_in compare_numbers (low to high)) (numbers_of literals.entry) }
{
    for i in 0..literals.len() {
        if lies_between(low, high, literals.number(i)) {
            return true;
        }
    }
    false
}

// Whether every number from the lowest to the highest is one of the literals: no at once where there are more numbers than literals.
#[tactic(auto, using(crate::proofs::Scans::scans))]
fn all_among(literals: Literals, low: i64, high: i64) -> bool
    requires { low ≤ℤ high }
    ensures { result ≡ every (λ v. elem compare_numbers v (numbers_of literals.entry)) (between low high) }
{
    let distance = high.abs_diff(low);
    if distance >= literals.len() as u64 {
        return false;
    }
    for v in low..=high {
        if !number_among(literals, v) {
            return false;
        }
    }
    true
}

// Whether some number between the ends meets an operator that takes one literal; no other operator is met. What some number between the ends meets, one of
// the two ends meets, but for Eq.
fn some_meets_one(operator: PredicateOperator, low: i64, high: i64, l: i64) -> bool
    requires { low ≤ℤ high }
    ensures { result ≡ some (λ v. meets_one number_tests (by_arity operator) v l) (between low high) }
{
    match operator {
        PredicateOperator::Eq => lies_between(low, high, l),
        _ => number_meets(operator, low, l) || number_meets(operator, high, l),
    }
}

// Whether some number between the ends meets a sheet's operator with its literals.
pub fn some_meets(x: &Sheet, low: i64, high: i64) -> bool
    requires { low ≤ℤ high }
    ensures { result ≡ some (present_meets number_tests (number_leaf x.now)) (between low high) }
{
    match x.operator {
        PredicateOperator::IsNull | PredicateOperator::IsNan => false,
        PredicateOperator::NotNull | PredicateOperator::NotNan => true,
        PredicateOperator::In => literal_between(x.literals, low, high),
        PredicateOperator::NotIn => !all_among(x.literals, low, high),
        _ => some_meets_one(x.operator, low, high, x.literals.number(0)),
    }
}
