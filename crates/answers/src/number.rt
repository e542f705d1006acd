// A leaf over a whole-number or time column.
ghost use Rattle.std.specs.Prelude.{true, ◌≡◌, ◌≤◌, length, Ok};
ghost use Rattle.expr.specs.Operators.{by_arity};
ghost use Rattle.expr.specs.code.OperatorAnswers.{takes_one, takes_many};
ghost use Rattle.numbers.specs.code.Boundaries.{number_projected};
ghost use Rattle.answers.specs.code.Settled.{Settled};
ghost use Rattle.answers.specs.code.Leaves.{number_steps, number_leaf_of, one_written, NumbersIn, has_steps, keeps, NumberColumn};
ghost use Rattle.write.specs.Written.{sheet_buffer};

use crate::answer::RECORD;
use crate::leaf::Leaf;
use expr::set::NumberSet;
use numbers::steps::{NumberTest, lifts_for, project_number};
use sets::number::project_set_expr;
use values::datatypes::PrimitiveType;
use values::error::ErrorKind;
use values::transform::Transform;
use write::answer::put_numbers;

// The projection of the one literal, written.
fn put_projection(to: PrimitiveType, p: Option<NumberTest>, out: &mut [u8]) -> Option<u16>
    requires numbers_in { NumbersIn to p }
    requires sheet_buffer_in_bounds { sheet_buffer ≤ length out.old }
    ensures { Settled (one_written to (number_projected (Ok p))) out.old out.new (Ok result) }
{
    match p? {
        NumberTest::One(operator, t) => {
            put_numbers(out, operator, to, &[t]);
            Some(RECORD * 2)
        }
        NumberTest::Two(operator, t) => {
            put_numbers(out, operator, to, &[t, t + 1]);
            Some(RECORD * 3)
        }
    }
}

// A leaf with one literal; under Identity it is the leaf itself.
pub fn project_one(x: Leaf, out: &mut [u8]) -> Result<Option<u16>, ErrorKind>
    requires number_column { NumberColumn x.sheet.literals.column }
    requires known { has_steps x.sheet.transform ≡ true }
    requires operator_value { takes_one (by_arity x.sheet.operator) ≡ true }
    requires sheet_buffer_in_bounds { sheet_buffer ≤ length out.old }
    ensures { Settled (number_steps x.entry (number_leaf_of x.entry)) out.old out.new result }
{
    let operator = x.sheet.operator;
    let transform = x.sheet.transform;
    let literals = x.sheet.literals;
    let l = literals.number(0);
    let p = match transform {
        Transform::Identity => Some(NumberTest::One(operator, l)),
        _ => project_number(x.question, literals.column, transform, operator, l)?,
    };
    Ok(put_projection(x.to, p, out))
}

// A leaf with a set that has a projection.
pub fn project_set(x: Leaf, out: &mut [u8]) -> Result<Option<u16>, ErrorKind>
    requires number_column { NumberColumn x.sheet.literals.column }
    requires known { has_steps x.sheet.transform ≡ true }
    requires operator_value { takes_many (by_arity x.sheet.operator) ≡ true }
    requires operator_value_2 { keeps x.sheet.transform x.question (by_arity x.sheet.operator) ≡ true }
    requires sheet_buffer_in_bounds { sheet_buffer ≤ length out.old }
    ensures { Settled (number_steps x.entry (number_leaf_of x.entry)) out.old out.new result }
{
    let transform = x.sheet.transform;
    let literals = x.sheet.literals;
    let lifts = lifts_for(x.question, literals.column, transform);
    let mut set = NumberSet::new();
    let n = project_set_expr(literals, transform, lifts, &mut set)?;
    put_numbers(out, x.sheet.operator, x.to, set.members());
    Ok(Some(RECORD * (n + 1) as u16))
}
