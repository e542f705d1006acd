// The routines under C's names, for programs in other languages: document 01's number is returned, and the count of bytes written, where there is one, is set in
// every case. The C interface has a name for each question, so routines that differ in their question alone stand side by side.
#![tactic(auto)]

ghost use Rattle.std.specs.Prelude.{◌≡◌};
ghost use Rattle.projection.specs.declared.question.Question.TheVariants.{Inclusive, Strict, Older};
ghost use Rattle.answers.specs.Answers.{answer_number, answer_count};
ghost use Rattle.meets.specs.Tested.{held_number};
ghost use Rattle.api.specs.HoldsTest.{holds_test};
ghost use Rattle.api.specs.Routines.{project_answer, project_leaves, transform_answer, transform_leaves};
ghost use Rattle.files.specs.TestSummary.{test_answer, test_leaves};
ghost use Rattle.filter.specs.FilterRoutines.{filter_row, filter_parts};
ghost use Rattle.pool.specs.Handed.{pool_number, told_lowest, told_highest, told_flag};
ghost use Rattle.pool.specs.Pooling as pooling;
ghost use Rattle.weighpick_c.specs.Version.{version};

use answers::answer::{Answer, answer_count, answer_number};
use api::holds::holds;
use api::literal::transform_literal;
use api::project::{project, strict_project, strict_project_older};
use files::files::test_summary;
use filter::filter::{filter_project, filter_row, filter_strict_project};
use meets::held::held_number;
use pool::pool::pool;

// Tells which library this is, for a caller that was built with another one's header.
#[unsafe(no_mangle)]
pub extern "C" fn weighpick_version() -> u32
    ensures { result ≡ version }
{
    9_000
}

// Sets the count of an answer, and gives its number.
fn told(answer: Answer, count: &mut u64) -> u32
    ensures number { result ≡ answer_number answer }
    ensures written { count.new ≡ answer_count answer }
{
    *count = answer_count(answer) as u64;
    answer_number(answer)
}

#[unsafe(no_mangle)]
pub extern "C" fn weighpick_project(sheet: &[u8], out: &mut [u8], count: &mut u64) -> u32
    ensures number { result ≡ answer_number (project_answer Inclusive sheet.now out.old) }
    ensures written { count.new ≡ answer_count (project_answer Inclusive sheet.now out.old) }
    ensures buffer { out.new ≡ project_leaves Inclusive sheet.now out.old }
{
    told(project(sheet, out), count)
}

#[unsafe(no_mangle)]
pub extern "C" fn weighpick_strict_project(sheet: &[u8], out: &mut [u8], count: &mut u64) -> u32
    ensures number { result ≡ answer_number (project_answer Strict sheet.now out.old) }
    ensures written { count.new ≡ answer_count (project_answer Strict sheet.now out.old) }
    ensures buffer { out.new ≡ project_leaves Strict sheet.now out.old }
{
    told(strict_project(sheet, out), count)
}

#[unsafe(no_mangle)]
pub extern "C" fn weighpick_strict_project_older(
    sheet: &[u8],
    out: &mut [u8],
    count: &mut u64,
) -> u32
    ensures number { result ≡ answer_number (project_answer Older sheet.now out.old) }
    ensures written { count.new ≡ answer_count (project_answer Older sheet.now out.old) }
    ensures buffer { out.new ≡ project_leaves Older sheet.now out.old }
{
    told(strict_project_older(sheet, out), count)
}

#[unsafe(no_mangle)]
pub extern "C" fn weighpick_transform(
    column_type: u8,
    transform: u8,
    width: u32,
    value: &[u8],
    out: &mut [u8],
    count: &mut u64,
) -> u32
    ensures number { result ≡ answer_number (transform_answer column_type transform width value.now out.old) }
    ensures written { count.new ≡ answer_count (transform_answer column_type transform width value.now out.old) }
    ensures buffer { out.new ≡ transform_leaves column_type transform width value.now out.old }
{
    told(
        transform_literal(column_type, transform, width, value, out),
        count,
    )
}

#[unsafe(no_mangle)]
pub extern "C" fn weighpick_holds(sheet: &[u8], value: &[u8]) -> u32
    ensures { result ≡ held_number (holds_test sheet.now value.now) }
{
    held_number(holds(sheet, value))
}

#[unsafe(no_mangle)]
pub extern "C" fn weighpick_test_summary(
    sheet: &[u8],
    summary: &[u8],
    out: &mut [u8],
    count: &mut u64,
) -> u32
    ensures number { result ≡ answer_number (test_answer sheet.now summary.now out.old) }
    ensures written { count.new ≡ answer_count (test_answer sheet.now summary.now out.old) }
    ensures buffer { out.new ≡ test_leaves sheet.now summary.now out.old }
{
    told(test_summary(sheet, summary, out), count)
}

// Sets the three numbers after 0 alone: 0 the first file's end, 1 the second's; and the flag.
#[unsafe(no_mangle)]
pub extern "C" fn weighpick_pool(
    first: &[u8],
    second: &[u8],
    lowest: &mut u64,
    highest: &mut u64,
    flag: &mut u64,
) -> u32
    ensures number { result ≡ pool_number (pooling.pool first.now second.now) }
    ensures lowest { lowest.new ≡ told_lowest (pooling.pool first.now second.now) lowest.old }
    ensures highest { highest.new ≡ told_highest (pooling.pool first.now second.now) highest.old }
    ensures flag { flag.new ≡ told_flag (pooling.pool first.now second.now) flag.old }
{
    match pool(first, second) {
        Ok(pooled) => {
            *lowest = u64::from(pooled.lowest);
            *highest = u64::from(pooled.highest);
            *flag = u64::from(pooled.flag);
            0
        }
        Err(e) => u32::from(e),
    }
}

#[unsafe(no_mangle)]
pub extern "C" fn weighpick_filter_row(columns: &[u8], text: &[u8], values: &[u8]) -> u32
    ensures { result ≡ held_number (filter_row columns.now text.now values.now) }
{
    held_number(filter_row(columns, text, values))
}

#[unsafe(no_mangle)]
pub extern "C" fn weighpick_filter_project(columns: &[u8], text: &[u8], values: &[u8]) -> u32
    ensures { result ≡ held_number (filter_parts Inclusive columns.now text.now values.now) }
{
    held_number(filter_project(columns, text, values))
}

#[unsafe(no_mangle)]
pub extern "C" fn weighpick_filter_strict_project(columns: &[u8], text: &[u8], values: &[u8]) -> u32
    ensures { result ≡ held_number (filter_parts Strict columns.now text.now values.now) }
{
    held_number(filter_strict_project(columns, text, values))
}
