// A leaf that was read, as its steps take it.
ghost use Rattle.std.specs.Prelude.{◌≡◌, Ok, suc, ◌*◌, ◌≤◌, length};
ghost use Rattle.partition.specs.ResultType.{result_type};
ghost use Rattle.expr.specs.Operators.{project_limit};
ghost use Rattle.sheet.specs.Records.{record_size};

use projection::question::Question;
use sheet::sheet::Sheet;
use values::datatypes::PrimitiveType;

// The sheet, what is asked of it, and the type of the partition values.
#[derive(Clone, Copy)]
pub struct Leaf<'a> {
    pub question: Question,
    pub sheet: Sheet<'a>,
    pub to: PrimitiveType,
    pub ghost typed: { result_type sheet.transform sheet.literals.column ≡ Ok to },
    pub ghost few: { length sheet.literals.records.now ≤ project_limit },
    pub ghost short: { length sheet.literals.sheet.now ≤ record_size * suc project_limit },
}
