// Whether a file is to be skipped, to be read, or taken whole, by a predicate and the file's summary.
ghost use Rattle.std.specs.Prelude.{◌≡◌};
ghost use Rattle.files.specs.TestSummary.{test_answer, test_leaves};

use answers::answer::{Answer, Refusal};
use expr::operator::HOLDS_LIMIT;
use sheet::reader::read_sheet;
use summary::reader::read_summary;
use verdict::file::judge;

// The bytes of a verdict.
pub const VERDICT_SIZE: usize = 1;

// Writes the verdict's number to the start of `out`. Refusals, in their order: 2, 3 of the sheet, 3 of the summary, 4, 11.
#[tactic(auto, unfolding(crate::specs::TestSummary::test_summary))]
pub fn test_summary(sheet: &[u8], summary: &[u8], out: &mut [u8]) -> Answer
    ensures number { result ≡ test_answer sheet.now summary.now out.old }
    ensures buffer { out.new ≡ test_leaves sheet.now summary.now out.old }
{
    if out.len() < VERDICT_SIZE {
        return Err(Refusal::BufferTooSmall);
    }
    let mut records = [0; HOLDS_LIMIT];
    let x = read_sheet(sheet, HOLDS_LIMIT, &mut records)?;
    let file = read_summary(summary)?;
    let verdict = judge(x, file)?;
    out[0] = u8::from(verdict);
    Ok(Some(VERDICT_SIZE as u16))
}
