// Whether the ends of a file rule out that a byte string between them meets an operator, by document 02's table. Of numbers something else is asked, whether some
// number between the ends meets it, so that the two stand apart.
ghost use Rattle.std.specs.Prelude.{◌≡◌, false};
ghost use Rattle.values.specs.SomeEvery.{some, every};
ghost use Rattle.values.specs.Order.{compare_bytes, is_less};
ghost use Rattle.expr.specs.Operators.{by_arity};
ghost use Rattle.sheet.specs.code.SheetAnswers.{contents_of};
ghost use Rattle.meets.specs.code.Leaves.{content_leaf};
ghost use Rattle.summary.specs.Summaries.{◌to◌};
ghost use Rattle.ends.specs.RuledOut.{outside, both_are, ruled_out};
ghost use Rattle.ends.specs.code.EndAnswers.{ruled_out_one};

use expr::operator::PredicateOperator;
use expr::test::bytes_meets;
use meets::literals::bytes_among;
use sheet::literals::Literals;
use sheet::sheet::Sheet;
use values::order::{is_less, starts_with};

// Whether a byte string lies outside the ends.
fn is_outside(low: &[u8], high: &[u8], l: &[u8]) -> bool
    ensures { result ≡ outside low.now high.now l.now }
{
    is_less(l, low) || is_less(high, l)
}

// Whether every literal lies outside the ends.
fn all_outside(literals: Literals, low: &[u8], high: &[u8]) -> bool
    ensures { result ≡ every (outside low.now high.now) (contents_of literals.entry) }
{
    for i in 0..literals.len() {
        if !is_outside(low, high, literals.content(i)) {
            return false;
        }
    }
    true
}

// Whether both ends are one and the same literal.
#[tactic(auto, using(crate::proofs::TextArms::same_ends, crate::proofs::TextArms::other_ends))]
fn both_among(literals: Literals, low: &[u8], high: &[u8]) -> bool
    ensures { result ≡ some (both_are low.now high.now) (contents_of literals.entry) }
{
    low == high && bytes_among(literals, low)
}

// Whether the ends rule out an operator that takes one literal. But for Eq and StartsWith they do where neither end meets it.
#[tactic(auto, using(crate::proofs::TextArms::lowest_meets, crate::proofs::TextArms::highest_decides))]
fn rules_out_one(operator: PredicateOperator, low: &[u8], high: &[u8], l: &[u8]) -> bool
    requires { is_less (compare_bytes high.now low.now) ≡ false }
    ensures { result ≡ ruled_out_one (by_arity operator) low.now high.now l.now }
{
    match operator {
        PredicateOperator::Eq => is_outside(low, high, l),
        PredicateOperator::StartsWith => {
            is_less(high, l) || is_less(l, low) && !starts_with(low, l)
        }
        _ => !bytes_meets(operator, low, l) && !bytes_meets(operator, high, l),
    }
}

// Whether the ends rule out a sheet's operator with its literals.
pub fn rules_out(x: &Sheet, low: &[u8], high: &[u8]) -> bool
    requires { is_less (compare_bytes high.now low.now) ≡ false }
    ensures { result ≡ ruled_out (content_leaf x.now) (low.now to high.now) }
{
    match x.operator {
        PredicateOperator::IsNull | PredicateOperator::IsNan => true,
        PredicateOperator::NotNull | PredicateOperator::NotNan => false,
        PredicateOperator::In => all_outside(x.literals, low, high),
        PredicateOperator::NotIn => both_among(x.literals, low, high),
        _ => rules_out_one(x.operator, low, high, x.literals.content(0)),
    }
}
