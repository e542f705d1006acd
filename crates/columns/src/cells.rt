// The values beside a column list: their types, and whether they are there.
ghost use Rattle.std.specs.Prelude.{◌≡◌, ◌<◌, length};
ghost use Rattle.values.specs.Types.{layout};
ghost use Rattle.sheet.specs.Records.{value};
ghost use Rattle.columns.specs.Cells.{type_of, cells_of};
ghost use Rattle.columns.specs.code.ColumnAnswers.{columns_in, column_at, side_of, encoded_value, without_value};

use crate::list::Columns;
use partition::result::result_type;
use sheet::content::value_encoded;
use sheet::head::Fields;
use sheet::records::RECORD_SIZE;
use sheet::value::read_value;
use values::datatypes::PrimitiveType;
use values::error::ErrorKind;

// What the values are: those of a row, or partition values.
#[derive(Clone, Copy, PartialEq, Eq)]
pub enum Side {
    Rows,
    Parts,
}

// Whether the value in a record's bytes is UTF-8, where its type asks for that; 3 where there is none.
fn check_value(bytes: &[u8], column: PrimitiveType) -> Result<bool, ErrorKind>
    ensures { result ≡ encoded_value column (value (layout column) bytes.now) }
{
    let value = read_value(bytes, column)?;
    Ok(value_encoded(column, value))
}

impl<'a> Columns<'a> {
    // The type that the value at a place has: of a partition value the result type, where there is one.
    pub fn type_at(self, k: usize, side: Side) -> PrimitiveType
        requires { k < length (columns_in self.list.now) }
        ensures { result ≡ type_of (side_of side) (column_at (columns_in self.entry.list.now) k) }
    {
        let Fields { column, transform } = self.fields_at(k);
        match side {
            Side::Rows => column,
            Side::Parts => result_type(transform, column).unwrap_or(column),
        }
    }

    // Whether values are there, one a column: 3, then 4. Every list that was read has a column.
    #[tactic(auto, using(crate::proofs::CellReads::values))]
    pub fn check_cells(self, values: &[u8], side: Side) -> Result<(), ErrorKind>
        requires count_nonzero { 0 < length (columns_in self.list.now) }
        ensures { result ≡ without_value (cells_of (side_of side) self.entry.list.now values.now) }
    {
        let (records, rest) = values.as_chunks::<RECORD_SIZE>();
        if records.len() != self.count() || !rest.is_empty() {
            return Err(ErrorKind::Malformed);
        }
        let mut encoded = true;
        for (k, value) in records.iter().enumerate() {
            // Not 4 at once: a later value may be 3.
            encoded &= check_value(value, self.type_at(k, side))?;
        }
        if encoded {
            Ok(())
        } else {
            Err(ErrorKind::NotUtf8)
        }
    }

    // The same of any list, of which nothing is asked: 3 where it has no column.
    #[tactic(auto, using(crate::specs::laws::ListedColumnLaws::columns_broken), unfolding(crate::specs::Cells::cells_of))]
    pub fn check_values(self, values: &[u8], side: Side) -> Result<(), ErrorKind>
        ensures { result ≡ without_value (cells_of (side_of side) self.entry.list.now values.now) }
    {
        match self.count() {
            0 => Err(ErrorKind::Malformed),
            _ => self.check_cells(values, side),
        }
    }
}

#[cfg(test)]
mod tests {
    use super::*;
    use crate::name::{ENTRY_SIZE, NAME_SIZE};

    // One value of four bytes beside one column, by the number of its type and the first of the bytes.
    fn check_one(column: u8, byte: u8) -> Result<(), ErrorKind> {
        let mut list = [0; ENTRY_SIZE];
        list[0] = b'a';
        list[NAME_SIZE + 4] = column;
        let mut value = [0; RECORD_SIZE];
        value[2] = 4;
        value[4] = byte;
        Columns::read(&list)?.check_values(&value, Side::Rows)
    }

    // An Int, a String, one that is not UTF-8, and a Long, which four bytes are not.
    #[test]
    fn one_value(rt: HostRuntime) {
        assert!(rt; check_one(1, b'a') == Ok(()));
        assert!(rt; check_one(9, b'a') == Ok(()));
        assert!(rt; check_one(9, 0xFF) == Err(ErrorKind::NotUtf8));
        assert!(rt; check_one(2, b'a') == Err(ErrorKind::Malformed));
    }

    // The empty list stands for a broken one.
    #[test]
    #[tactic(auto, unfolding(crate::specs::code::ColumnAnswers::columns_in, crate::specs::Columns::columns))]
    fn no_column(rt: HostRuntime) {
        let none = Columns { list: &[] };
        assert!(rt; none.check_values(&[], Side::Rows) == Err(ErrorKind::Malformed));
        assert!(rt; none.check_values(&[0; RECORD_SIZE], Side::Parts) == Err(ErrorKind::Malformed));
    }
}
