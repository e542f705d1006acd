// Whether a row meets a sheet's leaf.
ghost use Rattle.std.specs.Prelude.{◌≡◌, option_copied};
ghost use Rattle.sheet.specs.laws.RecordLaws.{FitsRow};
ghost use Rattle.meets.specs.code.HeldAnswers.{row_meets, value_meets};

use crate::literals::{bytes_holds, number_holds};
use expr::operator::PredicateOperator;
use expr::test::missing_holds;
use sheet::content::{number_in, value_encoded};
use sheet::literals::Literals;
use sheet::value::read_value;
use values::error::ErrorKind;

// Whether a row's value, which may be missing, meets an operator with a sheet's literals. Of a String the literals are to be UTF-8, and then the value.
#[tactic(auto, using(crate::proofs::RowTests::row_tests, values::specs::laws::SignedLaws::back))]
fn test_row(
    operator: PredicateOperator,
    literals: Literals,
    row: Option<&[u8]>,
) -> Result<bool, ErrorKind>
    requires { FitsRow literals.column (option_copied row) }
    ensures { result ≡ row_meets operator literals.entry (option_copied row.entry) }
{
    let column = literals.column;
    if !literals.are_encoded() || !value_encoded(column, row) {
        return Err(ErrorKind::NotUtf8);
    }
    match row {
        None => Ok(missing_holds(operator)),
        Some(content) => {
            if column.is_bytes() {
                Ok(bytes_holds(operator, literals, content))
            } else {
                Ok(number_holds(operator, literals, number_in(content)))
            }
        }
    }
}

// The same for a row's value as its record has it.
pub fn test_value(
    operator: PredicateOperator,
    literals: Literals,
    v: &[u8],
) -> Result<bool, ErrorKind>
    ensures { result ≡ value_meets operator literals.entry v.now }
{
    let row = read_value(v, literals.column)?;
    test_row(operator, literals, row)
}
