// Column lists: how many columns there are, the place of a name, and what a column's head says.
ghost use Rattle.std.specs.Prelude.{◌≡◌, ◌≤◌, ◌<◌, length, is_ok, IfOk, IfErr, Err};
ghost use Rattle.std.specs.List.{position};
ghost use Rattle.values.specs.Order.{compare_bytes, is_equal};
ghost use Rattle.sheet.specs.Records.{record_size};
ghost use Rattle.columns.specs.Columns.{plain_head, column, columns};
ghost use Rattle.columns.specs.code.ColumnAnswers.{name_of, good, entries_in, columns_in, column_at, fields_of, place_of};

use crate::name::{ENTRY_SIZE, Entry, NAME_SIZE, is_name, name_of};
use sheet::head::{Fields, read_fields};
use values::error::ErrorKind;
use values::words::u16_at;

// The most columns of a list.
pub const COLUMN_LIMIT: usize = 8;

// Whether a head is that of a column.
fn is_plain(head: &[u8]) -> bool
    requires { record_size ≤ length head.now }
    ensures { result ≡ is_ok (plain_head head.now) }
{
    u16_at(head, 0) == 0 && u16_at(head, 2) == 0 && read_fields(head).is_ok()
}

#[tactic(auto, using(crate::specs::laws::ColumnLaws::entry_ok))]
fn is_column(entry: &Entry) -> bool
    ensures { result ≡ is_ok (column entry.now) }
{
    is_name(&entry[..NAME_SIZE]) && is_plain(&entry[NAME_SIZE..])
}

// Whether a name is that of an entry. The first bytes are compared before letters are counted: they tell most names apart.
#[tactic(auto, using(crate::proofs::Entries::other_first, crate::specs::laws::NameLaws::same_bytes))]
fn has_name(entry: &Entry, name: &[u8]) -> bool
    ensures { result ≡ is_equal (compare_bytes name.now (name_of entry.now)) }
{
    if !name.is_empty() && name[0] != entry[0] {
        return false;
    }
    name == name_of(entry)
}

// The place of the first entry with a name.
fn first_named(entries: &[Entry], name: &[u8]) -> Option<usize>
    ensures { result ≡ position (λ e. is_equal (compare_bytes name.now (name_of e))) entries.now }
{
    entries.iter().position(|entry| has_name(entry, name))
}

// Whether entries are columns, each with a name that none before it has.
#[tactic(auto, using(crate::proofs::Entries::no_column_here))]
fn are_columns(entries: &[Entry]) -> bool
    ensures { result ≡ good entries.now }
{
    for (k, entry) in entries.iter().enumerate() {
        if !is_column(entry) {
            return false;
        }
        if first_named(&entries[..k], name_of(entry)).is_some() {
            return false;
        }
    }
    true
}

// A list with a column for each of its entries, perhaps none: a broken list has no columns, so the empty list may be handed in for it, and a text is read beside it.
// `read` says that what it gives has a column.
#[derive(Clone, Copy)]
pub struct Columns<'a> {
    pub list: &'a [u8],
    pub ghost whole: { length (columns_in list.now) ≡ length (entries_in list.now) },
}

impl<'a> Columns<'a> {
    #[tactic(auto, using(crate::specs::laws::ColumnLaws::lists, crate::specs::laws::ColumnLaws::entries_count))]
    pub fn read(list: &'a [u8]) -> Result<Columns<'a>, ErrorKind>
        ensures read { IfOk result (λ x. x.list.now ≡ list.now) }
        ensures some { IfOk result (λ x. 0 < length (columns_in x.list.now)) }
        ensures refused { IfErr result (λ e. columns list.now ≡ Err e) }
    {
        let (entries, rest) = list.as_chunks::<ENTRY_SIZE>();
        match entries.len() {
            1..=COLUMN_LIMIT if rest.is_empty() && are_columns(entries) => Ok(Columns { list }),
            _ => Err(ErrorKind::Malformed),
        }
    }

    fn entries(self) -> &'a [Entry]
        ensures { result.now ≡ entries_in self.entry.list.now }
    {
        self.list.as_chunks::<ENTRY_SIZE>().0
    }

    pub fn count(self) -> usize
        ensures { result ≡ length (columns_in self.entry.list.now) }
    {
        self.entries().len()
    }

    // The place of the column with a name.
    pub fn place_of(self, name: &[u8]) -> Option<usize>
        ensures { result ≡ place_of name.now (columns_in self.entry.list.now) }
    {
        first_named(self.entries(), name)
    }

    // Type and transform of the column at a place.
    #[tactic(auto, using(crate::specs::laws::ColumnLaws::head_at))]
    pub fn fields_at(self, k: usize) -> Fields
        requires { k < length (columns_in self.list.now) }
        ensures { result ≡ fields_of (column_at (columns_in self.entry.list.now) k).head }
    {
        let entry = &self.entries()[k];
        read_fields(&entry[NAME_SIZE..]).unwrap()
    }
}

// How many columns a list has; none where it is broken.
#[tactic(auto, unfolding(crate::specs::code::ColumnAnswers::columns_in))]
pub fn count_columns(c: &[u8]) -> usize
    ensures { result ≡ length (columns_in c.now) }
{
    match Columns::read(c) {
        Ok(columns) => columns.count(),
        Err(_) => 0,
    }
}
