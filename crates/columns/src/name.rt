// The names of columns.
ghost use Rattle.std.specs.Prelude.{◌≡◌, length, is_ok, take_while};
ghost use Rattle.values.specs.Ascending.{elem};
ghost use Rattle.values.specs.Characters.{is_letter, leading};
ghost use Rattle.values.specs.Order.{compare_bytes};
ghost use Rattle.columns.specs.Columns.{name_size, reserved, name_in};
ghost use Rattle.columns.specs.code.ColumnAnswers.{name_of};

use sheet::records::{RECORD_SIZE, zeros};
use values::characters::is_letter;

// The sizes of a name, which is its letters and zeros after them, and of an entry, which is a name and a head, in bytes.
pub const NAME_SIZE: usize = 16;

pub const ENTRY_SIZE: usize = NAME_SIZE + RECORD_SIZE;

pub type Entry = [u8; ENTRY_SIZE];

// The words of a filter, which name no column.
const RESERVED: [&[u8]; 4] = [b"and", b"or", b"not", b"startswith"];

fn is_reserved(name: &[u8]) -> bool
    ensures { result ≡ elem compare_bytes name.now reserved }
{
    RESERVED.contains(&name)
}

fn count_letters(bytes: &[u8]) -> usize
    ensures { result ≡ length (take_while is_letter bytes.now) }
{
    bytes.iter().take_while(|b| is_letter(**b)).count()
}

// The letters that bytes begin with.
#[tactic(auto, using(crate::proofs::Names::leading_counted))]
pub fn letters(bytes: &[u8]) -> &[u8]
    ensures { result.now ≡ leading is_letter bytes.now }
{
    &bytes[..count_letters(bytes)]
}

// The name of an entry, a part of it.
#[tactic(auto, unfolding(crate::specs::code::ColumnAnswers::name_of))]
pub fn name_of(entry: &Entry) -> &[u8]
    ensures { result.now ≡ name_of entry.now }
{
    letters(&entry[..NAME_SIZE])
}

// Whether bytes are a name that a column may have.
#[tactic(auto, using(crate::proofs::Names::leading_shorter))]
pub fn is_name(bytes: &[u8]) -> bool
    requires { length bytes.now ≡ name_size }
    ensures { result ≡ is_ok (name_in bytes.now) }
{
    let name = letters(bytes);
    let n = name.len();
    0 < n && zeros(bytes, n, NAME_SIZE - n) && !is_reserved(name)
}
