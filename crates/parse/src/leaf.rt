// What a leaf is answered by the value of its column.
ghost use Rattle.std.specs.Prelude.{◌≡◌, ◌<◌, length, option_copied};
ghost use Rattle.columns.specs.code.ColumnAnswers.{cell_at};
ghost use Rattle.parse.specs.code.FilterReads.{columns_of, cells_for, SomeLeaf, Asks};
ghost use Rattle.parse.specs.laws.AskingLaws.{asked_as};

use crate::request::Request;
use ask::leaf::{NumberLeaf, TextLeaf};
use ask::number::ask_number;
use ask::text::ask_text;
use expr::operator::PredicateOperator;
use leaves::leaf::{Leaf, Literal};
use sheet::head::Fields;
use sheet::literal::content_of;
use sheet::records::{MISSING_MARK, RECORD_SIZE};
use values::error::ErrorKind;
use values::words::u16_at;

// The operator as it is asked, under an odd number of nots where `negate`.
fn turned(negate: bool, operator: PredicateOperator) -> PredicateOperator
    ensures { result ≡ asked_as negate operator }
{
    if negate { operator.negate() } else { operator }
}

// The value at a place, which was found to be there.
#[tactic(auto, using(crate::proofs::Values::value_missing, crate::proofs::Values::value_short, crate::proofs::Values::value_present))]
fn value_at<'a>(request: &'a Request, place: usize) -> Option<&'a [u8]>
    requires { place < length (columns_of request.now) }
    ensures { option_copied result ≡ (cell_at (cells_for request.now) place).row }
{
    if u16_at(request.values, RECORD_SIZE * place + 2) == MISSING_MARK {
        None
    } else {
        Some(content_of(request.values, place))
    }
}

// What the leaf is answered by the value at its place.
pub fn ask_leaf(request: &Request, leaf: Leaf, negate: bool) -> Result<bool, ErrorKind>
    requires { SomeLeaf request.now leaf }
    ensures { Asks request.now negate leaf result }
{
    let Fields { column, transform } = request.columns.fields_at(leaf.place);
    let operator = turned(negate, leaf.operator);
    let value = value_at(request, leaf.place);
    match leaf.literal {
        Literal::Number(literal) => {
            let leaf = NumberLeaf {
                column,
                transform,
                operator,
                literal,
            };
            ask_number(request.asked, leaf, value)
        }
        Literal::Text(text) => {
            let leaf = TextLeaf {
                column,
                transform,
                operator,
                literal: &request.text[text.from..text.to],
            };
            ask_text(request.asked, leaf, value)
        }
    }
}
