// A sheet, read.
ghost use Rattle.std.specs.Prelude.{◌≡◌, ◌≤◌, length, IfOk};
ghost use Rattle.expr.specs.Operators.{holds_limit};
ghost use Rattle.sheet.specs.Sheets as sheets;
ghost use Rattle.sheet.specs.code.SheetAnswers.{sheet_told};

use crate::chain::walk;
use crate::head::read_head;
use crate::literals::Literals;
use crate::records::RECORD_SIZE;
use crate::sheet::{Sheet, takes_count};
use values::error::ErrorKind;

// A sheet with at most so many literals; the numbers of their records go into `records`, from its start on, in the order of the chain.
// Inlined where it is called: a sheet is many fields, which a Result hands on through memory.
#[inline(always)]
pub fn read_sheet<'a>(
    s: &'a [u8],
    most: usize,
    records: &'a mut [u16],
) -> Result<Sheet<'a>, ErrorKind>
    requires most_le_holds_limit { most ≤ holds_limit }
    requires records_len { length records.old ≡ holds_limit }
    ensures told { sheet_told result ≡ sheets.sheet most s.now }
    ensures lies { IfOk result (λ x. x.literals.sheet.now ≡ s.now) }
    ensures place { IfOk result (λ x. x.literals.records.ref_ptr ≡ records.entry.ref_ptr) }
{
    let size = s.len();
    if size == 0 {
        return Err(ErrorKind::Malformed);
    }
    if size % RECORD_SIZE != 0 {
        return Err(ErrorKind::Malformed);
    }
    if RECORD_SIZE * (most + 1) < size {
        return Err(ErrorKind::Malformed);
    }
    // `&*s` lets the compiler hand on address and length in registers.
    let head = read_head(&*s)?;
    let count = walk(&*s, head.column, 0, 0, records)?;
    if takes_count(head.operator, count) {
        Ok(Sheet {
            operator: head.operator,
            transform: head.transform,
            literals: Literals {
                sheet: s,
                records: &records[..count],
                column: head.column,
            },
        })
    } else {
        Err(ErrorKind::Malformed)
    }
}
