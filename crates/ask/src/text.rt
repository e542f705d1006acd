// A leaf with a text, over a String or Binary column. Numbers and texts are asked apart: their matches differ in the transforms that project, and a trait of both
// would take more lines than it would spare.
ghost use Rattle.std.specs.Prelude.{◌≡◌, option_copied, Ok};
ghost use Rattle.expr.specs.Holds.{bytes_tests};
ghost use Rattle.expr.specs.Operators.{by_arity};
ghost use Rattle.strings.specs.code.Prefixes.{bytes_projected, OneLiteral};
ghost use Rattle.ask.specs.declared.asked.Asked.TheVariants.{Part};
ghost use Rattle.ask.specs.code.Askings.{text_answer, meets_row, step_held};

use crate::asked::{Asked, without_predicate};
use crate::leaf::TextLeaf;
use expr::operator::PredicateOperator;
use expr::test::{bytes_meets, missing_holds};
use partition::result::result_type;
use projection::question::Question;
use strings::steps::project_bytes;
use values::error::ErrorKind;
use values::transform::Transform;

// Whether a byte string, which may be missing, meets an operator with a literal.
fn test_one(operator: PredicateOperator, l: &[u8], value: Option<&[u8]>) -> bool
    ensures { result ≡ meets_row bytes_tests (by_arity operator) l.now (option_copied value.entry) }
{
    match value {
        Some(v) => bytes_meets(operator, v, l),
        None => missing_holds(operator),
    }
}

// A partition value, which may be missing, against what the leaf came to.
fn test_projected(
    question: Question,
    p: Option<(PredicateOperator, &[u8])>,
    value: Option<&[u8]>,
) -> bool
    requires { OneLiteral p }
    ensures { Ok result ≡ step_held bytes_tests question (bytes_projected p.entry) (option_copied value.entry) }
{
    match p {
        Some((operator, l)) => test_one(operator, l, value),
        None => without_predicate(question),
    }
}

// What a partition value is answered: 5, then Unknown's 7, then the steps; under Identity the leaf itself is tested. `_` is Void here.
#[tactic(auto, using(crate::proofs::PartAnswers::text_parts))]
fn ask_part(question: Question, leaf: TextLeaf, value: Option<&[u8]>) -> Result<bool, ErrorKind>
    ensures { let x = leaf.entry in result ≡ text_answer (Part question) x.column x.transform (by_arity x.operator) x.literal.now (option_copied value.entry) }
{
    let TextLeaf {
        column,
        transform,
        operator,
        literal,
    } = leaf;
    result_type(transform, column)?;
    match transform {
        Transform::Unknown => Err(ErrorKind::FeatureUnsupported),
        Transform::Identity => Ok(test_one(operator, literal, value)),
        Transform::Truncate(width) => {
            let p = project_bytes(question, column, width, operator, literal);
            Ok(test_projected(question, p, value))
        }
        _ => Ok(without_predicate(question)),
    }
}

// What a leaf with a text is answered by a value: a row by the holds-test, a partition value as above.
#[tactic(auto, using(crate::specs::laws::PartAnswerLaws::text_of_row))]
pub fn ask_text(asked: Asked, leaf: TextLeaf, value: Option<&[u8]>) -> Result<bool, ErrorKind>
    ensures { let x = leaf.entry in result ≡ text_answer asked x.column x.transform (by_arity x.operator) x.literal.now (option_copied value.entry) }
{
    match asked {
        Asked::Row => Ok(test_one(leaf.operator, leaf.literal, value)),
        Asked::Part(question) => ask_part(question, leaf, value),
    }
}
