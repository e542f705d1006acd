// The projections of a sheet: the Rust's `Transform::project` and `strict_project` (src/spec/transform.rs), over bytes, and 02's strict one for older files.
ghost use Rattle.std.specs.Prelude.{◌≡◌, ◌≤◌, length};
ghost use Rattle.projection.specs.declared.question.Question.TheVariants.{Inclusive, Strict, Older};
ghost use Rattle.write.specs.Written.{sheet_buffer};
ghost use Rattle.answers.specs.code.Settled.{Settled};
ghost use Rattle.api.specs.Routines.{project_sheet, project_answer, project_leaves};

use answers::answer::{Answer, Refusal};
use answers::project::project_leaf;
use expr::operator::{HOLDS_LIMIT, PROJECT_LIMIT};
use projection::question::Question;
use sheet::reader::read_sheet;
use sheet::records::RECORD_SIZE;
use values::error::ErrorKind;

// The bytes of the longest answer sheet.
pub const SHEET_BUFFER: usize = RECORD_SIZE * (HOLDS_LIMIT + 1);

// 3, and then what the leaf is answered, where the buffer has room for any answer sheet.
fn project_checked(
    question: Question,
    sheet: &[u8],
    out: &mut [u8],
) -> Result<Option<u16>, ErrorKind>
    requires { sheet_buffer ≤ length out.old }
    ensures { Settled (project_sheet question sheet.now) out.old out.new result }
{
    let mut records = [0; HOLDS_LIMIT];
    // `&*sheet` lets the compiler hand on address and length in registers.
    let x = read_sheet(&*sheet, PROJECT_LIMIT, &mut records)?;
    project_leaf(question, x, out)
}

// The answer sheet of a sheet, written to the start of `out`: 2, then 3, then what the leaf is answered.
fn project_sheet(question: Question, sheet: &[u8], out: &mut [u8]) -> Answer
    ensures number { result ≡ project_answer question sheet.now out.old }
    ensures buffer { out.new ≡ project_leaves question sheet.now out.old }
{
    if out.len() < SHEET_BUFFER {
        return Err(Refusal::BufferTooSmall);
    }
    let written = project_checked(question, sheet, out)?;
    Ok(written)
}

// Which partition values may have a row that meets the sheet's leaf.
pub fn project(sheet: &[u8], out: &mut [u8]) -> Answer
    ensures number { result ≡ project_answer Inclusive sheet.now out.old }
    ensures buffer { out.new ≡ project_leaves Inclusive sheet.now out.old }
{
    project_sheet(Question::Inclusive, sheet, out)
}

// Which partition values have only rows that meet the sheet's leaf.
pub fn strict_project(sheet: &[u8], out: &mut [u8]) -> Answer
    ensures number { result ≡ project_answer Strict sheet.now out.old }
    ensures buffer { out.new ≡ project_leaves Strict sheet.now out.old }
{
    project_sheet(Question::Strict, sheet, out)
}

// The same for older files, where a row with a negative partition value may be filed under the next one.
pub fn strict_project_older(sheet: &[u8], out: &mut [u8]) -> Answer
    ensures number { result ≡ project_answer Older sheet.now out.old }
    ensures buffer { out.new ≡ project_leaves Older sheet.now out.old }
{
    project_sheet(Question::Older, sheet, out)
}
