// The routines of filters: a row, or partition values under either question, against a text.
ghost use Rattle.std.specs.Prelude.{◌≡◌};
ghost use Rattle.projection.specs.declared.question.Question.TheVariants as question;
ghost use Rattle.columns.specs.code.ColumnAnswers.{side_of};
ghost use Rattle.parse.specs.code.Asking.{side_for};
ghost use Rattle.filter.specs.FilterRoutines.{filter_row, filter_parts};
ghost use Rattle.filter.specs.code.FilterAnswers.{text_answered, filter_answered};

use ask::asked::Asked;
use columns::cells::Side;
use columns::list::Columns;
use parse::read::Ahead;
use parse::request::Request;
use projection::question::Question;
use values::error::ErrorKind;

// The most bytes of a text, and the most leaves.
pub const TEXT_LIMIT: usize = 4096;

pub const LEAF_LIMIT: usize = 32;

fn side_of(asked: Asked) -> Side
    ensures { side_of result ≡ side_for asked }
{
    match asked {
        Asked::Row => Side::Rows,
        Asked::Part(_) => Side::Parts,
    }
}

// What a text is answered: 10 for bytes, 9, 10 for brackets and leaves, then its leaves' answers.
#[tactic(auto, using(crate::proofs::Texts::text_answers))]
fn answer_text(request: &Request) -> Result<bool, ErrorKind>
    ensures { result ≡ text_answered request.now }
{
    if request.text.len() > TEXT_LIMIT {
        return Err(ErrorKind::TooLarge);
    }
    let filter = match request.parse_or(0, false, 0) {
        Some(filter) if filter.ahead == Ahead::End => filter,
        _ => return Err(ErrorKind::OutsideGrammar),
    };
    if filter.deep || filter.leaves > LEAF_LIMIT {
        return Err(ErrorKind::TooLarge);
    }
    filter.answer
}

// Whether what is asked meets the text: 3 and 4 first.
#[tactic(auto, using(crate::proofs::Filtered::list_broken, crate::proofs::Filtered::values_ready, crate::proofs::Filtered::values_answered))]
fn filter(asked: Asked, columns: &[u8], text: &[u8], values: &[u8]) -> Result<bool, ErrorKind>
    ensures { result ≡ filter_answered asked columns.now text.now values.now }
{
    let columns = Columns::read(columns)?;
    columns.check_cells(values, side_of(asked))?;
    answer_text(&Request {
        asked,
        columns,
        text,
        values,
    })
}

// Whether a row meets a filter.
#[tactic(auto, unfolding(crate::specs::FilterRoutines::filter_row))]
pub fn filter_row(columns: &[u8], text: &[u8], values: &[u8]) -> Result<bool, ErrorKind>
    ensures { result ≡ filter_row columns.now text.now values.now }
{
    filter(Asked::Row, columns, text, values)
}

// Whether rows of these partition values may meet it.
#[tactic(auto, unfolding(crate::specs::FilterRoutines::filter_parts))]
pub fn filter_project(columns: &[u8], text: &[u8], values: &[u8]) -> Result<bool, ErrorKind>
    ensures { result ≡ filter_parts question.Inclusive columns.now text.now values.now }
{
    filter(Asked::Part(Question::Inclusive), columns, text, values)
}

// Whether all of them do.
#[tactic(auto, unfolding(crate::specs::FilterRoutines::filter_parts))]
pub fn filter_strict_project(columns: &[u8], text: &[u8], values: &[u8]) -> Result<bool, ErrorKind>
    ensures { result ≡ filter_parts question.Strict columns.now text.now values.now }
{
    filter(Asked::Part(Question::Strict), columns, text, values)
}
