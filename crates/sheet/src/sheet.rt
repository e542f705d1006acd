// A whole sheet: its size, its head, and the literals on its chain.
ghost use Rattle.std.specs.Prelude.{◌≡◌, true, length};
ghost use Rattle.expr.specs.Operators.{by_arity};
ghost use Rattle.expr.specs.code.OperatorAnswers.{takes};

use crate::literals::Literals;
use expr::operator::PredicateOperator;
use values::transform::Transform;

// A sheet that was read: a leaf over one column, with the transform that splits the table.
#[derive(Clone, Copy)]
pub struct Sheet<'a> {
    pub operator: PredicateOperator,
    pub transform: Transform,
    pub literals: Literals<'a>,
    pub ghost taken: { takes (by_arity operator) (length literals.records.now) ≡ true },
}

// Whether an operator takes so many literals.
pub fn takes_count(operator: PredicateOperator, count: usize) -> bool
    ensures { result ≡ takes (by_arity operator) count }
{
    if operator.is_unary() {
        return count == 0;
    }
    if operator.is_set() {
        return true;
    }
    count == 1
}
