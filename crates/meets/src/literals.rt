// Whether a value meets an operator with the literals of a sheet.
ghost use Rattle.std.specs.Prelude.{◌≡◌};
ghost use Rattle.values.specs.Ascending.{elem};
ghost use Rattle.values.specs.Order.{compare_numbers, compare_bytes};
ghost use Rattle.sheet.specs.code.SheetAnswers.{contents_of, numbers_of};
ghost use Rattle.meets.specs.code.HeldAnswers.{number_meets, bytes_meets};

use expr::operator::PredicateOperator;
use expr::test::{bytes_meets, number_meets};
use sheet::literals::Literals;

// Whether a number equals one of the literals. Numbers and byte strings are tested apart: a trait of both would take more lines than the two loops and the two
// matches that it would spare.
#[tactic(auto, using(sheet::proofs::Turns::equal_here, sheet::proofs::Turns::other_here, std::proofs::lemmas::Grind::common_steps))]
pub fn number_among(literals: Literals, v: i64) -> bool
    ensures { result ≡ elem compare_numbers v (numbers_of literals.entry) }
{
    for i in 0..literals.len() {
        if v == literals.number(i) {
            return true;
        }
    }
    false
}

// The same for a byte string.
#[tactic(auto, using(crate::specs::laws::EqualBytesLaws::slices_equal, std::proofs::lemmas::Grind::common_steps))]
pub fn bytes_among(literals: Literals, v: &[u8]) -> bool
    ensures { result ≡ elem compare_bytes v.now (contents_of literals.entry) }
{
    for i in 0..literals.len() {
        if v == literals.content(i) {
            return true;
        }
    }
    false
}

// Whether a present number meets an operator with those literals; one that takes one literal is met by none without any.
pub fn number_holds(operator: PredicateOperator, literals: Literals, v: i64) -> bool
    ensures { result ≡ number_meets operator literals.entry v }
{
    match operator {
        PredicateOperator::IsNull | PredicateOperator::IsNan => false,
        PredicateOperator::NotNull | PredicateOperator::NotNan => true,
        PredicateOperator::In => number_among(literals, v),
        PredicateOperator::NotIn => !number_among(literals, v),
        _ => literals.len() != 0 && number_meets(operator, v, literals.number(0)),
    }
}

// The same for a byte string.
pub fn bytes_holds(operator: PredicateOperator, literals: Literals, v: &[u8]) -> bool
    ensures { result ≡ bytes_meets operator literals.entry v.now }
{
    match operator {
        PredicateOperator::IsNull | PredicateOperator::IsNan => false,
        PredicateOperator::NotNull | PredicateOperator::NotNan => true,
        PredicateOperator::In => bytes_among(literals, v),
        PredicateOperator::NotIn => !bytes_among(literals, v),
        _ => literals.len() != 0 && bytes_meets(operator, v, literals.content(0)),
    }
}
