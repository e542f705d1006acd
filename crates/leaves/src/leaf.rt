// Leaves of a filter as they are read, and whether a text fits its column.
ghost use Rattle.std.specs.Prelude.{◌≡◌};
ghost use Rattle.leaves.specs.Fitting.{text, fits};

use expr::operator::PredicateOperator;
use sheet::records::CONTENT_SIZE;
use tokens::token::Span;
use values::datatypes::PrimitiveType;
use values::utf8::is_utf8;

#[derive(Clone, Copy, PartialEq, Eq)]
pub enum Literal {
    Number(i64),
    // Where a text lies, between its quotes.
    Text(Span),
}

#[derive(Clone, Copy, PartialEq, Eq)]
pub struct Leaf {
    // Of the column, in the list.
    pub place: usize,
    pub operator: PredicateOperator,
    pub literal: Literal,
}

pub fn text_fits(column: PrimitiveType, bytes: &[u8]) -> bool
    ensures { result ≡ fits column (text bytes.now) }
{
    if bytes.len() > CONTENT_SIZE {
        return false;
    }
    match column {
        PrimitiveType::String => is_utf8(bytes),
        PrimitiveType::Binary => true,
        _ => false,
    }
}
