// What was read of a filter's text.
ghost use Rattle.std.specs.Prelude.{◌≡◌, ◌+◌, ◌≤◌, ◌<◌, length};
ghost use Rattle.columns.specs.code.ColumnAnswers.{columns_in};
ghost use Rattle.parse.specs.code.FilterReads.{Seen};
ghost use Rattle.parse.specs.code.Reading.{all_of, filter_to, join_read};

use crate::join::join_answers;
use columns::list::Columns;
use leaves::symbol::{Symbol, symbol_at};
use values::error::ErrorKind;

// A word between two filters.
#[derive(Clone, Copy, PartialEq, Eq)]
pub enum Word {
    And,
    Or,
}

impl Word {
    // Whether it joins two filters as `and` does: under an odd number of nots (`negate`) each word becomes the other.
    pub fn joins_all(self, negate: bool) -> bool
        ensures { result ≡ all_of self negate }
    {
        match self {
            Word::And => !negate,
            Word::Or => negate,
        }
    }
}

// The symbol after a filter: what may stand there, and then what may not.
#[derive(Clone, Copy, PartialEq, Eq)]
pub enum Ahead {
    End,
    Word(Word),
    Closing,
    Leaf,
    Not,
    Opening,
    Unreadable,
}

// A filter. The fields of a word come first: the others then lie side by side, and are handed through memory in one piece.
#[derive(Clone, Copy)]
pub struct Read {
    // Where the text after the filter begins, and where the text after the symbol there begins.
    pub next: usize,
    pub past: usize,
    // How many leaves it has.
    pub leaves: usize,
    // What that symbol is, so that none is read twice.
    pub ahead: Ahead,
    // Whether too many of its brackets are open at one place; no answer counts then.
    pub deep: bool,
    pub answer: Result<bool, ErrorKind>,
}

// The symbol at `next`, and where the text after it begins.
fn look_ahead(columns: Columns, text: &[u8], next: usize) -> (Ahead, usize)
    requires { next ≤ length text.now }
    ensures { Seen (columns_in columns.entry.list.now) text.now next result.0 result.1 }
{
    let (symbol, past) = symbol_at(columns, text, next);
    let ahead = match symbol {
        Symbol::End => Ahead::End,
        Symbol::And => Ahead::Word(Word::And),
        Symbol::Or => Ahead::Word(Word::Or),
        Symbol::Closing => Ahead::Closing,
        Symbol::Leaf(_) => Ahead::Leaf,
        Symbol::Not => Ahead::Not,
        Symbol::Opening => Ahead::Opening,
        Symbol::Unreadable => Ahead::Unreadable,
    };
    (ahead, past)
}

// A filter that ends at `next`, with the symbol there.
pub fn filter_to(
    columns: Columns,
    text: &[u8],
    next: usize,
    leaves: usize,
    deep: bool,
    answer: Result<bool, ErrorKind>,
) -> Read
    requires { next ≤ length text.now }
    ensures is { result ≡ filter_to next leaves deep answer result.ahead result.past }
    ensures seen { Seen (columns_in columns.entry.list.now) text.now next result.ahead result.past }
{
    let (ahead, past) = look_ahead(columns, text, next);
    Read {
        next,
        past,
        leaves,
        ahead,
        deep,
        answer,
    }
}

// Two filters with a word between them: under and where `all`.
pub fn join_reads(all: bool, left: Read, right: Read) -> Read
    requires { left.leaves + right.leaves < 18446744073709551616 }
    ensures { result ≡ join_read all left right }
{
    Read {
        leaves: left.leaves + right.leaves,
        deep: left.deep || right.deep,
        answer: join_answers(all, left.answer, right.answer),
        ..right
    }
}
