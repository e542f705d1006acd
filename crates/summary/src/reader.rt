// A summary, read.
ghost use Rattle.std.specs.Prelude.{◌≡◌, ◌+◌, ◌*◌, ◌≤◌, length, option_copied};
ghost use Rattle.sheet.specs.Records.{record_size, record_at};
ghost use Rattle.summary.specs.Summaries as summaries;
ghost use Rattle.summary.specs.code.SummaryAnswers.{ends_told, summary_told};

use crate::summary::{Ends, FLAG_AT, HAS_MISSING, NONE_PRESENT, SUMMARY_SIZE, Summary, TYPE_AT};
use sheet::records::RECORD_SIZE;
use sheet::value::read_value;
use values::datatypes::PrimitiveType;
use values::error::ErrorKind;

// Record k, a part of the summary.
pub fn record_in<'a>(f: &'a [u8], k: usize) -> &'a [u8]
    requires { record_size * (k + 1) ≤ length f.now }
    ensures bytes { result.now ≡ record_at f.now k }
    ensures place { result.ref_ptr ≡ (f.entry.ref_ptr.0, record_size * k + f.entry.ref_ptr.1) }
{
    let from = RECORD_SIZE * k;
    let to = from + RECORD_SIZE;
    &f[from..to]
}

// The ends: two that are marked missing where no value is present, and else two values.
fn ends_of<'a>(
    none: bool,
    lowest: Option<&'a [u8]>,
    highest: Option<&'a [u8]>,
) -> Result<Option<Ends<'a>>, ErrorKind>
    ensures { ends_told result ≡ summaries.ends_of none (option_copied lowest.entry) (option_copied highest.entry) }
{
    match (none, lowest, highest) {
        (true, None, None) => Ok(None),
        (false, Some(lowest), Some(highest)) => Ok(Some(Ends { lowest, highest })),
        _ => Err(ErrorKind::Malformed),
    }
}

#[inline(always)]
#[tactic(auto, using(values::specs::laws::WordLaws::word_one), unfolding(crate::specs::Summaries::summary))]
pub fn read_summary<'a>(f: &'a [u8]) -> Result<Summary<'a>, ErrorKind>
    ensures { summary_told result ≡ summaries.summary f.now }
{
    if f.len() != SUMMARY_SIZE {
        return Err(ErrorKind::Malformed);
    }
    let column = PrimitiveType::try_from(f[TYPE_AT])?;
    let flag = f[FLAG_AT];
    if flag > HAS_MISSING + NONE_PRESENT {
        return Err(ErrorKind::Malformed);
    }
    let none = flag >= NONE_PRESENT;
    let missing = flag % 2 == HAS_MISSING;
    let lowest = read_value(record_in(f, 0), column)?;
    let highest = read_value(record_in(f, 1), column)?;
    let ends = ends_of(none, lowest, highest)?;
    Ok(Summary {
        column,
        missing,
        ends,
    })
}
