// A leaf with a number, over a whole-number or time column.
ghost use Rattle.std.specs.Prelude.{true, [], ◌∷◌, ◌≡◌, option_copied, Ok};
ghost use Rattle.std.proofs.Math.IntN.{suc_ℤ};
ghost use Rattle.expr.specs.Holds.{number_tests, meets};
ghost use Rattle.expr.specs.Operators.{is_in, by_arity};
ghost use Rattle.expr.specs.Predicates.{set};
ghost use Rattle.expr.specs.code.OperatorAnswers.{takes_many};
ghost use Rattle.numbers.specs.code.Boundaries.{number_projected, OneIn};
ghost use Rattle.sheet.specs.laws.RecordLaws.{FitsRow};
ghost use Rattle.ask.specs.declared.asked.Asked.TheVariants.{Part};
ghost use Rattle.ask.specs.code.Askings.{type_asked, number_row, number_answer, NumberSized, meets_row, meets_two, step_held};

use crate::asked::{Asked, without_predicate};
use crate::leaf::NumberLeaf;
use expr::operator::PredicateOperator;
use expr::test::{missing_holds, number_meets};
use numbers::steps::{NumberTest, project_number};
use partition::result::result_type;
use projection::question::Question;
use sheet::content::number_in;
use values::error::ErrorKind;
use values::transform::Transform;

// The number that a value is, where it is present.
fn number_of(value: Option<&[u8]>) -> Option<i64>
    requires { NumberSized (option_copied value) }
    ensures { result ≡ number_row (option_copied value.entry) }
{
    value.map(number_in)
}

// Whether a number, which may be missing, meets an operator with a literal.
fn test_one(operator: PredicateOperator, l: i64, number: Option<i64>) -> bool
    ensures { result ≡ meets_row number_tests (by_arity operator) l number }
{
    match number {
        Some(v) => number_meets(operator, v, l),
        None => missing_holds(operator),
    }
}

// Whether a number is t or the one above it.
fn is_either(v: i64, t: i64) -> bool
    ensures { result ≡ meets number_tests (set is_in (t ∷ suc_ℤ t ∷ [])) v }
{
    v == t || t.checked_add(1) == Some(v)
}

// Whether a number, which may be missing, meets In or NotIn of t and the one above it.
#[tactic(auto, using(crate::proofs::Numbers::two_missing, crate::proofs::Numbers::other_set))]
fn test_two(operator: PredicateOperator, t: i64, number: Option<i64>) -> bool
    requires { takes_many (by_arity operator) ≡ true }
    ensures { result ≡ meets_two (by_arity operator) t number }
{
    let Some(v) = number else {
        return missing_holds(operator);
    };
    match operator {
        PredicateOperator::In => is_either(v, t),
        _ => !is_either(v, t),
    }
}

// A partition value, which may be missing, against what the leaf came to.
fn test_projected(question: Question, p: Option<NumberTest>, number: Option<i64>) -> bool
    requires { OneIn (Ok p) }
    ensures { Ok result ≡ step_held number_tests question (number_projected (Ok p)) number }
{
    match p {
        None => without_predicate(question),
        Some(NumberTest::One(operator, t)) => test_one(operator, t, number),
        Some(NumberTest::Two(operator, t)) => test_two(operator, t, number),
    }
}

// What a partition value is answered: 5, then Unknown's 7, then the steps; under Identity the leaf itself is tested.
#[tactic(auto, using(crate::proofs::PartAnswers::number_parts, crate::proofs::Numbers::part_sized, crate::proofs::Numbers::seen))]
fn ask_part(question: Question, leaf: NumberLeaf, value: Option<&[u8]>) -> Result<bool, ErrorKind>
    requires { FitsRow (type_asked (Part question) leaf.column leaf.transform) (option_copied value) }
    ensures { let x = leaf in result ≡ number_answer (Part question) x.column x.transform (by_arity x.operator) x.literal (option_copied value.entry) }
{
    let NumberLeaf {
        column,
        transform,
        operator,
        literal,
    } = leaf;
    result_type(transform, column)?;
    match transform {
        Transform::Unknown => Err(ErrorKind::FeatureUnsupported),
        Transform::Void => Ok(without_predicate(question)),
        Transform::Identity => Ok(test_one(operator, literal, number_of(value))),
        _ => {
            let p = project_number(question, column, transform, operator, literal)?;
            Ok(test_projected(question, p, number_of(value)))
        }
    }
}

// What a leaf with a number is answered by a value: a row by the holds-test, a partition value as above.
#[tactic(auto, using(crate::specs::laws::PartAnswerLaws::number_of_row, crate::proofs::Numbers::row_sized, crate::proofs::Numbers::seen))]
pub fn ask_number(asked: Asked, leaf: NumberLeaf, value: Option<&[u8]>) -> Result<bool, ErrorKind>
    requires { FitsRow (type_asked asked leaf.column leaf.transform) (option_copied value) }
    ensures { let x = leaf in result ≡ number_answer asked x.column x.transform (by_arity x.operator) x.literal (option_copied value.entry) }
{
    match asked {
        Asked::Row => Ok(test_one(leaf.operator, leaf.literal, number_of(value))),
        Asked::Part(question) => ask_part(question, leaf, value),
    }
}
