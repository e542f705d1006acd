// A leaf over a String or Binary column.
ghost use Rattle.std.specs.Prelude.{true, ◌≡◌, ◌≤◌, length, Ok};
ghost use Rattle.values.specs.Types.{content_size};
ghost use Rattle.expr.specs.Operators.{by_arity};
ghost use Rattle.expr.specs.code.OperatorAnswers.{takes_one, takes_many};
ghost use Rattle.strings.specs.code.Prefixes.{bytes_projected, NoLonger, OneLiteral};
ghost use Rattle.answers.specs.code.Settled.{Settled};
ghost use Rattle.answers.specs.code.Leaves.{byte_steps, bytes_leaf_of, one_bytes_written, has_steps, keeps, BytesColumn};
ghost use Rattle.write.specs.Written.{sheet_buffer};

use crate::answer::RECORD;
use crate::leaf::Leaf;
use expr::operator::{HOLDS_LIMIT, PredicateOperator};
use sets::string::project_set_expr;
use sheet::parts::ContentParts;
use sheet::records::PROJECT_RECORDS;
use strings::steps::project_bytes;
use values::datatypes::PrimitiveType;
use values::error::ErrorKind;
use values::transform::Transform;
use write::answer::{put_parts, put_strings};

// The projection of the one literal, written.
fn put_projection(
    to: PrimitiveType,
    p: Option<(PredicateOperator, &[u8])>,
    out: &mut [u8],
) -> Option<u16>
    requires no_longer { NoLonger content_size p }
    requires one_literal { OneLiteral p }
    requires sheet_buffer_in_bounds { sheet_buffer ≤ length out.old }
    ensures { Settled (one_bytes_written to (bytes_projected p.entry)) out.old out.new (Ok result) }
{
    let (operator, part) = p?;
    put_strings(out, operator, to, &[part]);
    Some(RECORD * 2)
}

// A leaf with one literal. What is not Truncate is Identity here, and gives the leaf itself.
pub fn project_one(x: Leaf, out: &mut [u8]) -> Result<Option<u16>, ErrorKind>
    requires bytes_column { BytesColumn x.sheet.literals.column }
    requires known { has_steps x.sheet.transform ≡ true }
    requires operator_value { takes_one (by_arity x.sheet.operator) ≡ true }
    requires sheet_buffer_in_bounds { sheet_buffer ≤ length out.old }
    ensures { Settled (byte_steps x.entry (bytes_leaf_of x.entry)) out.old out.new result }
{
    let operator = x.sheet.operator;
    let literals = x.sheet.literals;
    let l = literals.content(0);
    let p = match x.sheet.transform {
        Transform::Truncate(width) => {
            project_bytes(x.question, literals.column, width, operator, l)
        }
        _ => Some((operator, l)),
    };
    Ok(put_projection(x.to, p, out))
}

// A leaf with a set that has a projection.
pub fn project_set(x: Leaf, out: &mut [u8]) -> Result<Option<u16>, ErrorKind>
    requires bytes_column { BytesColumn x.sheet.literals.column }
    requires known { has_steps x.sheet.transform ≡ true }
    requires operator_value { takes_many (by_arity x.sheet.operator) ≡ true }
    requires operator_value_2 { keeps x.sheet.transform x.question (by_arity x.sheet.operator) ≡ true }
    requires sheet_buffer_in_bounds { sheet_buffer ≤ length out.old }
    ensures { Settled (byte_steps x.entry (bytes_leaf_of x.entry)) out.old out.new result }
{
    let literals = x.sheet.literals;
    let mut sizes = [0; PROJECT_RECORDS];
    let mut set = [0; HOLDS_LIMIT];
    let n = project_set_expr(literals, x.sheet.transform, &mut sizes, &mut set)?;
    let parts = ContentParts {
        sheet: literals.sheet,
        sizes: &sizes,
        records: &set[..n],
    };
    put_parts(out, x.sheet.operator, x.to, parts);
    Ok(Some(RECORD * (n + 1) as u16))
}
