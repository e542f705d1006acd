// Literals, predicates, and lines.
ghost use Rattle.std.specs.Prelude.{◌∷◌, ◌<◌, length, get_or};
ghost use Rattle.arrayvec.specs.ArrayVec.{Extends};
ghost use Rattle.values.specs.Types.{layout};
ghost use Rattle.sheet.specs.code.Placed.{content_at};
ghost use Rattle.sheet.specs.code.SheetAnswers.{contents_of};
ghost use Rattle.text.specs.code.Room.{HasRoom};
ghost use Rattle.text.specs.Text.{space, digits, literal_text, literals_text, answer_words, spaced, after_zero, answer_line};

use crate::decimal::{put_decimal, put_digits};
use crate::hexadecimal::put_hexadecimal;
use crate::output::put_text;
use arrayvec::ArrayVec;
use expr::operator::HOLDS_LIMIT;
use sheet::literals::Literals;
use sheet::reader::read_sheet;

// Literal i.
fn put_literal<const N: usize>(out: &mut ArrayVec<u8, N>, literals: Literals, i: usize)
    requires i_in_bounds { i < length literals.records.now }
    requires room { HasRoom N out.old (literal_text (layout literals.column) (content_at literals.sheet.now (get_or literals.records.now i 0))) }
    ensures { Extends out.old (literal_text (layout literals.entry.column) (content_at literals.entry.sheet.now (get_or literals.entry.records.now i 0))) out.new }
{
    if literals.column.is_bytes() {
        put_hexadecimal(out, literals.content(i));
    } else {
        put_decimal(out, literals.number(i));
    }
}

// The literals, a space before each.
fn put_literals<const N: usize>(out: &mut ArrayVec<u8, N>, literals: Literals)
    requires { HasRoom N out.old (literals_text (layout literals.column) (contents_of literals)) }
    ensures { Extends out.old (literals_text (layout literals.entry.column) (contents_of literals.entry)) out.new }
{
    for i in 0..literals.len() {
        out.push(b' ');
        put_literal(out, literals, i);
    }
}

// A number without a sign, after a space.
fn put_word<const N: usize>(out: &mut ArrayVec<u8, N>, v: u64)
    requires { HasRoom N out.old (space ∷ digits v) }
    ensures { Extends out.old (space ∷ digits v) out.new }
{
    out.push(b' ');
    put_digits(out, v);
}

// The predicate of an answer sheet: its operator and its literals.
pub fn put_predicate<const N: usize>(out: &mut ArrayVec<u8, N>, answer: &[u8])
    requires { HasRoom N out.old (spaced (answer_words answer.now)) }
    ensures { Extends out.old (spaced (answer_words answer.now)) out.new }
{
    let mut records = [0; HOLDS_LIMIT];
    if let Ok(sheet) = read_sheet(answer, HOLDS_LIMIT, &mut records) {
        put_word(out, u64::from(u16::from(sheet.operator)));
        put_literals(out, sheet.literals);
    }
}

// What follows the number of an answer: after 0 the predicate of the answer sheet, after another number nothing.
fn put_answer<const N: usize>(out: &mut ArrayVec<u8, N>, number: u32, answer: &[u8])
    requires { HasRoom N out.old (spaced (after_zero number (answer_words answer.now))) }
    ensures { Extends out.old (spaced (after_zero number (answer_words answer.now))) out.new }
{
    if number == 0 {
        put_predicate(out, answer);
    }
}

// The line for a question, the number of its answer, and the answer sheet, which counts after 0.
#[tactic(auto, unfolding(crate::specs::Text::answer_line))]
pub fn put_line<const N: usize>(
    out: &mut ArrayVec<u8, N>,
    question: &[u8],
    number: u32,
    answer: &[u8],
)
    requires { HasRoom N out.old (answer_line question.now number answer.now) }
    ensures { Extends out.old (answer_line question.now number answer.now) out.new }
{
    put_text(out, question);
    put_word(out, u64::from(number));
    put_answer(out, number, answer);
    out.push(b'\n');
}
