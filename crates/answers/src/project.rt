// A leaf to be projected: the checks before the steps, and the steps by the operator and the column's type,
// the choice in the Rust's `project` and `strict_project` (src/spec/transform.rs).
// Each function that answers is called in one place, so that the compiler can put it there, and an answer stays in registers.
ghost use Rattle.std.specs.Prelude.{true, ◌≡◌, suc, ◌*◌, ◌≤◌, length};
ghost use Rattle.expr.specs.Operators.{by_arity, project_limit};
ghost use Rattle.expr.specs.code.OperatorAnswers.{takes_none, takes_one, takes_many};
ghost use Rattle.sheet.specs.Records.{record_size};
ghost use Rattle.sheet.specs.code.SheetAnswers.{sheet_of};
ghost use Rattle.answers.specs.code.Settled.{Settled};
ghost use Rattle.answers.specs.code.Leaves.{projected_at, steps, bytes_leaf_of, has_steps, keeps};
ghost use Rattle.write.specs.Written.{sheet_buffer};

use crate::answer::RECORD;
use crate::leaf::Leaf;
use crate::{number, string};
use expr::operator::PredicateOperator;
use partition::result::result_type;
use projection::question::Question;
use sheet::sheet::Sheet;
use values::error::ErrorKind;
use values::transform::Transform;
use write::answer::put_no_literal;

// IsNull, NotNull, IsNan and NotNan pass through unchanged.
fn project_unary(x: Leaf, out: &mut [u8]) -> Result<Option<u16>, ErrorKind>
    requires known { has_steps x.sheet.transform ≡ true }
    requires operator_value { takes_none (by_arity x.sheet.operator) ≡ true }
    requires sheet_buffer_in_bounds { sheet_buffer ≤ length out.old }
    ensures { Settled (steps x.entry (bytes_leaf_of x.entry)) out.old out.new result }
{
    put_no_literal(out, x.sheet.operator, x.to);
    Ok(Some(RECORD))
}

// A leaf with one literal.
fn project_binary(x: Leaf, out: &mut [u8]) -> Result<Option<u16>, ErrorKind>
    requires known { has_steps x.sheet.transform ≡ true }
    requires operator_value { takes_one (by_arity x.sheet.operator) ≡ true }
    requires sheet_buffer_in_bounds { sheet_buffer ≤ length out.old }
    ensures { Settled (steps x.entry (bytes_leaf_of x.entry)) out.old out.new result }
{
    if x.sheet.literals.column.is_bytes() {
        string::project_one(x, out)
    } else {
        number::project_one(x, out)
    }
}

// Whether a set has a projection: Identity keeps both operators; of the others inclusive keeps In, and strict NotIn, for older files too.
fn keeps_set(question: Question, operator: PredicateOperator, transform: Transform) -> bool
    ensures { result ≡ keeps transform question (by_arity operator) }
{
    if transform == Transform::Identity {
        return true;
    }
    match operator {
        PredicateOperator::In => question == Question::Inclusive,
        PredicateOperator::NotIn => question != Question::Inclusive,
        _ => false,
    }
}

// A leaf with a set.
fn project_set(x: Leaf, out: &mut [u8]) -> Result<Option<u16>, ErrorKind>
    requires known { has_steps x.sheet.transform ≡ true }
    requires operator_value { takes_many (by_arity x.sheet.operator) ≡ true }
    requires sheet_buffer_in_bounds { sheet_buffer ≤ length out.old }
    ensures { Settled (steps x.entry (bytes_leaf_of x.entry)) out.old out.new result }
{
    if !keeps_set(x.question, x.sheet.operator, x.sheet.transform) {
        return Ok(None);
    }
    if x.sheet.literals.column.is_bytes() {
        string::project_set(x, out)
    } else {
        number::project_set(x, out)
    }
}

// The steps.
fn project_known(x: Leaf, out: &mut [u8]) -> Result<Option<u16>, ErrorKind>
    requires known { has_steps x.sheet.transform ≡ true }
    requires sheet_buffer_in_bounds { sheet_buffer ≤ length out.old }
    ensures { Settled (steps x.entry (bytes_leaf_of x.entry)) out.old out.new result }
{
    let operator = x.sheet.operator;
    if operator.is_unary() {
        project_unary(x, out)
    } else if operator.is_set() {
        project_set(x, out)
    } else {
        project_binary(x, out)
    }
}

// Unknown's 7, and Void, which has no predicate for any operator.
fn project_checked(x: Leaf, out: &mut [u8]) -> Result<Option<u16>, ErrorKind>
    requires sheet_buffer_in_bounds { sheet_buffer ≤ length out.old }
    ensures { Settled (steps x.entry (bytes_leaf_of x.entry)) out.old out.new result }
{
    match x.sheet.transform {
        Transform::Void => Ok(None),
        Transform::Unknown => Err(ErrorKind::FeatureUnsupported),
        _ => project_known(x, out),
    }
}

// The answer sheet of a sheet's leaf: 4, then 5, then the steps.
pub fn project_leaf(
    question: Question,
    sheet: Sheet,
    out: &mut [u8],
) -> Result<Option<u16>, ErrorKind>
    requires few { length sheet.literals.records.now ≤ project_limit }
    requires short { length sheet.literals.sheet.now ≤ record_size * suc project_limit }
    requires sheet_buffer_in_bounds { sheet_buffer ≤ length out.old }
    ensures { Settled (projected_at question (sheet_of sheet.entry)) out.old out.new result }
{
    if !sheet.literals.are_encoded() {
        return Err(ErrorKind::NotUtf8);
    }
    let to = result_type(sheet.transform, sheet.literals.column)?;
    let x = Leaf {
        question,
        sheet,
        to,
    };
    project_checked(x, out)
}
