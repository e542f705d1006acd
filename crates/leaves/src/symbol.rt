// The next symbol of a filter's text: a leaf, a word or a bracket.
ghost use Rattle.std.specs.Prelude.{◌≡◌, ◌≤◌, length};
ghost use Rattle.values.specs.Order.{compare_bytes, is_equal};
ghost use Rattle.columns.specs.code.ColumnAnswers.{columns_in};
ghost use Rattle.tokens.specs.code.TokenAnswers.{IsPart};
ghost use Rattle.leaves.specs.code.SymbolAnswers.{OperatorAt, LiteralAt, LeafAt, WordAt, Symbolises};

use crate::leaf::{Leaf, Literal, text_fits};
use columns::list::Columns;
use expr::operator::PredicateOperator;
use tokens::token::{Span, Token, token_at};
use values::datatypes::PrimitiveType;

#[derive(Clone, Copy, PartialEq, Eq)]
pub enum Symbol {
    End,
    Leaf(Leaf),
    And,
    Or,
    Not,
    Opening,
    Closing,
    Unreadable,
}

// Whether two words are the same.
#[tactic(auto, using(columns::specs::laws::NameLaws::same_bytes))]
fn is_word(w: &[u8], word: &[u8]) -> bool
    ensures { result ≡ is_equal (compare_bytes w.now word.now) }
{
    w == word
}

// ---- What is read, and where the text after it begins.

fn operator_at(s: &[u8], at: usize) -> Option<(PredicateOperator, usize)>
    requires { at ≤ length s.now }
    ensures { OperatorAt s.now at result }
{
    let (token, next) = token_at(s, at);
    match token {
        Token::Sign(operator) => Some((operator, next)),
        Token::Word(word) => {
            let is_word = is_word(&s[word.from..word.to], b"startswith");
            is_word.then_some((PredicateOperator::StartsWith, next))
        }
        _ => None,
    }
}

// A literal that is one of the column's type.
#[tactic(auto, using(crate::proofs::Found::too_large))]
fn literal_at(column: PrimitiveType, s: &[u8], at: usize) -> Option<(Literal, usize)>
    requires { at ≤ length s.now }
    ensures { LiteralAt column s.now at result }
{
    let (token, next) = token_at(s, at);
    match token {
        Token::Decimal(number) => {
            let holds = column.holds(number);
            holds.then_some((Literal::Number(number), next))
        }
        Token::Quoted(text) => {
            let fits = text_fits(column, &s[text.from..text.to]);
            fits.then_some((Literal::Text(text), next))
        }
        _ => None,
    }
}

// A leaf from its operator on, of the column with a name.
#[tactic(auto, using(crate::specs::laws::SymbolLaws::place_within))]
fn leaf_at(columns: Columns, name: &[u8], s: &[u8], at: usize) -> Option<(Leaf, usize)>
    requires { at ≤ length s.now }
    ensures { LeafAt (columns_in columns.entry.list.now) name.now s.now at result }
{
    let place = columns.place_of(name)?;
    let column = columns.fields_at(place).column;
    let (operator, after) = operator_at(s, at)?;
    let (literal, next) = literal_at(column, s, after)?;
    let leaf = Leaf {
        place,
        operator,
        literal,
    };
    Some((leaf, next))
}

// What begins with a word, after which the text goes on at `next`: the word itself, or a leaf of the column of that name.
#[tactic(auto, using(crate::proofs::Found::no_leaf_word))]
fn word_at(columns: Columns, s: &[u8], word: Span, next: usize) -> (Symbol, usize)
    requires word_in_bounds { IsPart s.now word }
    requires next_in_bounds { next ≤ length s.now }
    ensures { WordAt (columns_in columns.entry.list.now) s.now word next result }
{
    let name = &s[word.from..word.to];
    if is_word(name, b"and") {
        return (Symbol::And, next);
    }
    if is_word(name, b"or") {
        return (Symbol::Or, next);
    }
    if is_word(name, b"not") {
        return (Symbol::Not, next);
    }
    match leaf_at(columns, name, s, next) {
        Some((leaf, after)) => (Symbol::Leaf(leaf), after),
        None => (Symbol::Unreadable, next),
    }
}

// The symbol that a text begins with at a place.
#[tactic(auto, using(crate::proofs::Found::first_symbols))]
pub fn symbol_at(columns: Columns, s: &[u8], at: usize) -> (Symbol, usize)
    requires { at ≤ length s.now }
    ensures { Symbolises (columns_in columns.entry.list.now) s.now at result.0 result.1 }
{
    let (token, next) = token_at(s, at);
    match token {
        Token::End => (Symbol::End, next),
        Token::Word(word) => word_at(columns, s, word, next),
        Token::Opening => (Symbol::Opening, next),
        Token::Closing => (Symbol::Closing, next),
        _ => (Symbol::Unreadable, next),
    }
}
