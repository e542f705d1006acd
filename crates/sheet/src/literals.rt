// The literals of a sheet, where they lie.
ghost use Rattle.std.specs.Prelude.{not, ◌||◌, ◌≡◌, ◌<◌, length, get_or};
ghost use Rattle.values.specs.Types.{layout, same_type};
ghost use Rattle.values.specs.declared.datatypes.PrimitiveType.TheVariants.{String};
ghost use Rattle.sheet.specs.code.Placed.{Placed, content_at, contents_at, number_at, InLayout};
ghost use Rattle.sheet.specs.code.Contents.{all_utf8};

use crate::literal::{content_of, number_of};
use values::datatypes::PrimitiveType;
use values::utf8::is_utf8;

// The records of a sheet that hold its literals, by their numbers in the order of the chain.
#[derive(Clone, Copy)]
pub struct Literals<'a> {
    pub sheet: &'a [u8],
    pub records: &'a [u16],
    pub column: PrimitiveType,
    pub ghost placed: { Placed (layout column) sheet.now records.now (length records.now) },
}

impl<'a> Literals<'a> {
    pub fn len(self) -> usize
        ensures { result ≡ length self.entry.records.now }
    {
        self.records.len()
    }

    // The content of literal i, a part of the sheet.
    pub fn content(self, i: usize) -> &'a [u8]
        requires { i < length self.records.now }
        ensures { result.now ≡ content_at self.entry.sheet.now (get_or self.entry.records.now i 0) }
    {
        content_of(self.sheet, self.records[i] as usize)
    }

    // The number that literal i is, and 0 where the type has no numbers.
    pub fn number(self, i: usize) -> i64
        requires { i < length self.records.now }
        ensures is { result ≡ number_at (layout self.entry.column) self.entry.sheet.now (get_or self.entry.records.now i 0) }
        ensures ranged { InLayout (layout self.entry.column) result }
    {
        number_of(self.sheet, self.records[i] as usize, self.column)
    }

    // Whether they are UTF-8.
    pub fn are_utf8(self) -> bool
        ensures { result ≡ all_utf8 (contents_at self.entry.sheet.now self.entry.records.now (length self.entry.records.now)) }
    {
        for i in 0..self.len() {
            if !is_utf8(self.content(i)) {
                return false;
            }
        }
        true
    }

    // Whether they are what the column asks for.
    pub fn are_encoded(self) -> bool
        ensures { result ≡ (not (same_type self.entry.column String) || all_utf8 (contents_at self.entry.sheet.now self.entry.records.now (length self.entry.records.now))) }
    {
        self.column != PrimitiveType::String || self.are_utf8()
    }
}
