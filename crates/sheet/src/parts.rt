// Beginnings of contents of a sheet, where they lie.
ghost use Rattle.std.specs.Prelude.{◌≡◌, ◌<◌, length, get_or};
ghost use Rattle.sheet.specs.code.ReadAnswers.{Parts, part_at};

use crate::literal::beginning_of;

// Records of a sheet by their numbers, with how many first bytes of each content count: a size for each record's number.
#[derive(Clone, Copy)]
pub struct ContentParts<'a> {
    pub sheet: &'a [u8],
    pub sizes: &'a [u8],
    pub records: &'a [u16],
    pub ghost parts: { Parts sheet.now sizes.now records.now (length records.now) },
}

impl<'a> ContentParts<'a> {
    pub fn len(self) -> usize
        ensures { result ≡ length self.entry.records.now }
    {
        self.records.len()
    }

    // The beginning of content i, a part of the sheet.
    pub fn content(self, i: usize) -> &'a [u8]
        requires { i < length self.records.now }
        ensures { result.now ≡ part_at self.entry.sheet.now self.entry.sizes.now (get_or self.entry.records.now i 0) }
    {
        let k = self.records[i] as usize;
        beginning_of(self.sheet, k, self.sizes[k] as usize)
    }
}
