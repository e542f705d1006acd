// The token that a text begins with.
ghost use Rattle.std.specs.Prelude.{true, ◌≡◌, ◌+◌, ◌≤◌, ◌<◌, pos, length, drop, get_or};
ghost use Rattle.values.specs.Characters.{is_letter, is_digit};
ghost use Rattle.tokens.specs.Tokens.{word_at, decimal_at, minus_at, quoted_at, token};
ghost use Rattle.tokens.specs.code.TokenAnswers.{decimal_of, Takes, Longest, Reads};

use crate::decimal::leading_digits;
use crate::run::{byte, leading_letters, leading_spaces, leading_text};
use expr::operator::PredicateOperator;
use values::characters::{is_digit, is_letter};

// A part of a text, by where it begins and ends.
#[derive(Clone, Copy, PartialEq, Eq)]
pub struct Span {
    pub from: usize,
    pub to: usize,
}

// What a text begins with, after its spaces.
#[derive(Clone, Copy, PartialEq, Eq)]
pub enum Token {
    End,
    Word(Span),
    Sign(PredicateOperator),
    // A decimal that 64 bits hold, and one that they do not.
    Decimal(i64),
    TooLarge,
    // The text between the quotes.
    Quoted(Span),
    Opening,
    Closing,
    Unreadable,
}

fn decimal(number: Option<i64>) -> Token
    ensures { result ≡ decimal_of number }
{
    number.map_or(Token::TooLarge, Token::Decimal)
}

// ---- A token, and where the text after it begins.

// A word, which begins with the letter at `from`.
#[tactic(auto, using(crate::specs::laws::RunLaws::runs))]
fn word_at(s: &[u8], from: usize) -> (Token, usize)
    requires { is_letter (get_or s.now from 0) ≡ true }
    ensures { Takes s.now from result.0 result.1 (word_at (drop from s.now)) }
{
    let to = from + leading_letters(&s[from..]);
    (Token::Word(Span { from, to }), to)
}

// A decimal without a minus, which begins with the digit at `from`.
#[tactic(auto, using(crate::specs::laws::RunLaws::runs))]
fn natural_at(s: &[u8], from: usize) -> (Token, usize)
    requires { is_digit (get_or s.now from 0) ≡ true }
    ensures { Takes s.now from result.0 result.1 (decimal_at pos (drop from s.now)) }
{
    let digits = leading_digits(&s[from..]);
    let number = 0i64.checked_add_unsigned(digits.magnitude);
    (decimal(number), from + digits.len)
}

// A decimal with the minus at `from`, which is unreadable where no digit follows at once.
#[tactic(auto, using(crate::specs::laws::RunLaws::runs, crate::proofs::Readings::minus_refused))]
fn minus_at(s: &[u8], from: usize) -> (Token, usize)
    requires { from < length s.now }
    ensures { Takes s.now from result.0 result.1 (minus_at (drop (from + 1) s.now)) }
{
    let first = from + 1;
    if !is_digit(byte(s, first)) {
        return (Token::Unreadable, first);
    }
    let digits = leading_digits(&s[first..]);
    let number = 0i64.checked_sub_unsigned(digits.magnitude);
    (decimal(number), first + digits.len)
}

// Text in quotes, of which the first stands at `from`.
#[tactic(auto, using(crate::specs::laws::RunLaws::runs, crate::proofs::Readings::unclosed_taken, crate::proofs::Readings::quoted_taken))]
fn quoted_at(s: &[u8], from: usize) -> (Token, usize)
    requires { from < length s.now }
    ensures { Takes s.now from result.0 result.1 (quoted_at (drop (from + 1) s.now)) }
{
    let start = from + 1;
    let end = start + leading_text(&s[start..]);
    if end == s.len() {
        return (Token::Unreadable, end);
    }
    let text = Span {
        from: start,
        to: end,
    };
    (Token::Quoted(text), end + 1)
}

// One of two signs that begin with the character at `from`: with `=` as the next one, and without.
fn longest_at(s: &[u8], from: usize, with: Token, without: Token) -> (Token, usize)
    requires { from < length s.now }
    ensures { Longest with without s.now from result.0 result.1 }
{
    let next = from + 1;
    if byte(s, next) == b'=' {
        return (with, next + 1);
    }
    (without, next)
}

// The token that begins at `from`, where no space stands.
#[tactic(auto, using(crate::proofs::Readings::other_first))]
fn token_from(s: &[u8], from: usize) -> (Token, usize)
    requires { from < length s.now }
    ensures { Takes s.now from result.0 result.1 (token (drop from s.now)) }
{
    let first = s[from];
    if is_letter(first) {
        return word_at(s, from);
    }
    if is_digit(first) {
        return natural_at(s, from);
    }
    let next = from + 1;
    match first {
        b'-' => minus_at(s, from),
        b'\'' => quoted_at(s, from),
        b'(' => (Token::Opening, next),
        b')' => (Token::Closing, next),
        b'<' => longest_at(
            s,
            from,
            Token::Sign(PredicateOperator::LessThanOrEq),
            Token::Sign(PredicateOperator::LessThan),
        ),
        b'>' => longest_at(
            s,
            from,
            Token::Sign(PredicateOperator::GreaterThanOrEq),
            Token::Sign(PredicateOperator::GreaterThan),
        ),
        b'=' => (Token::Sign(PredicateOperator::Eq), next),
        b'!' => longest_at(
            s,
            from,
            Token::Sign(PredicateOperator::NotEq),
            Token::Unreadable,
        ),
        _ => (Token::Unreadable, next),
    }
}

// The token after the spaces that stand from `at` on.
#[tactic(auto, using(crate::specs::laws::RunLaws::runs, crate::proofs::Readings::end_read, crate::proofs::Readings::token_read))]
pub fn token_at(s: &[u8], at: usize) -> (Token, usize)
    requires { at ≤ length s.now }
    ensures { Reads s.now at result.0 result.1 }
{
    let from = at + leading_spaces(&s[at..]);
    if from == s.len() {
        return (Token::End, from);
    }
    token_from(s, from)
}
