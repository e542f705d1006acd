// The holds-test: whether a value meets a sheet's leaf, or a partition value an answer sheet's predicate.
ghost use Rattle.std.specs.Prelude.{◌≡◌};
ghost use Rattle.api.specs.HoldsTest.{holds_test};

use expr::operator::HOLDS_LIMIT;
use meets::test::test_value;
use sheet::reader::read_sheet;
use values::error::ErrorKind;

// Whether a value meets a sheet's leaf.
pub fn holds(sheet: &[u8], value: &[u8]) -> Result<bool, ErrorKind>
    ensures { result ≡ holds_test sheet.now value.now }
{
    let mut records = [0; HOLDS_LIMIT];
    let x = read_sheet(sheet, HOLDS_LIMIT, &mut records)?;
    test_value(x.operator, x.literals, value)
}
