// What program `weighpick` prints for the bytes that it reads.
ghost use Rattle.std.specs.Prelude.{◌≡◌, ◌+◌, ◌≤◌};
ghost use Rattle.arrayvec.specs.ArrayVec.{Extends, array_vec_len};
ghost use Rattle.text.specs.Program.{printed, output_size};

use crate::line::put_line;
// The program lends such a vector.
pub use crate::output::{OUTPUT_SIZE, Output};
use answers::answer::{answer_count, answer_number};
use api::project::{SHEET_BUFFER, project, strict_project};
use arrayvec::ArrayVec;
use sheet::records::{PROJECT_RECORDS, RECORD_SIZE};

// What is read: a byte more than the longest sheet has, so that the start of a longer one is not taken for a sheet.
pub const INPUT_SIZE: usize = RECORD_SIZE * PROJECT_RECORDS + 1;

// Writes both lines for a sheet.
pub fn put_sheet<const N: usize>(out: &mut ArrayVec<u8, N>, sheet: &[u8])
    requires { array_vec_len out.old + output_size ≤ N }
    ensures { Extends out.old (printed sheet.now) out.new }
{
    let mut buffer = [0; SHEET_BUFFER];
    let inclusive = project(sheet, &mut buffer);
    put_line(
        out,
        b"inclusive",
        answer_number(inclusive),
        &buffer[..answer_count(inclusive)],
    );
    let strict = strict_project(sheet, &mut buffer);
    put_line(
        out,
        b"strict",
        answer_number(strict),
        &buffer[..answer_count(strict)],
    );
}

// The same in a vector of its own.
pub fn print_sheet(sheet: &[u8]) -> Output
    ensures { result.items ≡ printed sheet.now }
{
    let mut out = Output::new();
    put_sheet(&mut out, sheet);
    out
}
