// A leaf as it is asked: its column, how the table is split by that, and an operator with one literal.
ghost use Rattle.std.specs.Prelude.{true, ◌≡◌};
ghost use Rattle.values.specs.Types.{bytes, layout, content_size, in_type};
ghost use Rattle.expr.specs.Operators.{by_arity};
ghost use Rattle.expr.specs.code.OperatorAnswers.{takes_one};

use expr::operator::PredicateOperator;
use values::datatypes::PrimitiveType;
use values::transform::Transform;

// Over a whole-number or time column.
#[derive(Clone, Copy)]
pub struct NumberLeaf {
    pub column: PrimitiveType,
    pub transform: Transform,
    pub operator: PredicateOperator,
    pub literal: i64,
    pub ghost one: { takes_one (by_arity operator) ≡ true },
    pub ghost fits: { in_type column literal ≡ true },
}

// Over a String or Binary column.
#[derive(Clone, Copy)]
pub struct TextLeaf<'a> {
    pub column: PrimitiveType,
    pub transform: Transform,
    pub operator: PredicateOperator,
    pub literal: &'a [u8],
    pub ghost one: { takes_one (by_arity operator) ≡ true },
    pub ghost texts: { layout column ≡ bytes content_size },
}
