// Filters, read and answered in one pass. The routines for or, and, not and brackets call each other, a form that the paper binds; the bytes left fall.
ghost use Rattle.std.specs.Prelude.{◌≤◌, length};
ghost use Rattle.grammar.specs.Parser.{single, conjunction, disjunction};
ghost use Rattle.parse.specs.FilterText.{bracket_limit};
ghost use Rattle.parse.specs.code.FilterReads.{parser_of, part_of, Reads, ReadsBracket};

use crate::leaf::ask_leaf;
use crate::read::{Ahead, Read, Word, filter_to, join_reads};
use crate::request::Request;
use crate::skim::skim;
use leaves::symbol::{Symbol, symbol_at};

// The most brackets that may be open at one place.
pub const BRACKET_LIMIT: usize = 16;

// What is read of a filter from `at` on: under an odd number of nots (`negate`) or becomes and, and and becomes or; `opened` brackets are open around it.
impl Request<'_> {
    #[cycle(parser)]
    pub fn parse_or(&self, at: usize, negate: bool, opened: usize) -> Option<Read>
        requires at_in_bounds { at ≤ length self.now.text.now }
        requires few { opened ≤ bracket_limit }
        ensures { Reads self.now disjunction at negate opened result }
    {
        self.parse_chain(Word::Or, at, negate, opened)
    }

    #[cycle(parser)]
    fn parse_and(&self, at: usize, negate: bool, opened: usize) -> Option<Read>
        requires at_in_bounds { at ≤ length self.now.text.now }
        requires few { opened ≤ bracket_limit }
        ensures { Reads self.now conjunction at negate opened result }
    {
        self.parse_chain(Word::And, at, negate, opened)
    }

    // The loop of both: filters with one word between them, from the left.
    #[inline(always)]
    #[cycle(parser)]
    fn parse_chain(&self, word: Word, at: usize, negate: bool, opened: usize) -> Option<Read>
        requires at_in_bounds { at ≤ length self.now.text.now }
        requires few { opened ≤ bracket_limit }
        ensures { Reads self.now (parser_of word) at negate opened result }
    {
        let mut left = self.parse_part(word, at, negate, opened)?;
        while left.ahead == Ahead::Word(word) {
            let right = self.parse_part(word, left.past, negate, opened)?;
            left = join_reads(word.joins_all(negate), left, right);
        }
        Some(left)
    }

    // What stands between two such words.
    #[inline(always)]
    #[cycle(parser)]
    fn parse_part(&self, word: Word, at: usize, negate: bool, opened: usize) -> Option<Read>
        requires at_in_bounds { at ≤ length self.now.text.now }
        requires few { opened ≤ bracket_limit }
        ensures { Reads self.now (part_of word) at negate opened result }
    {
        match word {
            Word::Or => self.parse_and(at, negate, opened),
            Word::And => self.parse_not(at, negate, opened),
        }
    }

    // The nots are a loop: a text may have a thousand, and each would take its share of the stack.
    #[cycle(parser)]
    fn parse_not(&self, at: usize, negate: bool, opened: usize) -> Option<Read>
        requires at_in_bounds { at ≤ length self.now.text.now }
        requires few { opened ≤ bracket_limit }
        ensures { Reads self.now single at negate opened result }
    {
        let mut here = at;
        let mut turned = negate;
        loop {
            let (symbol, next) = symbol_at(self.columns, self.text, here);
            match symbol {
                Symbol::Not => {
                    turned = !turned;
                    here = next;
                }
                Symbol::Leaf(leaf) => {
                    let answer = ask_leaf(self, leaf, turned);
                    return Some(filter_to(self.columns, self.text, next, 1, false, answer));
                }
                Symbol::Opening => return self.parse_bracket(next, turned, opened),
                _ => return None,
            }
        }
    }

    // What is in a bracket, from the text after `(` on. Where too many are open it is passed over: nothing in it is answered.
    #[cycle(parser)]
    fn parse_bracket(&self, at: usize, negate: bool, opened: usize) -> Option<Read>
        requires at_in_bounds { at ≤ length self.now.text.now }
        requires few { opened ≤ bracket_limit }
        ensures { ReadsBracket self.now at negate opened result }
    {
        if opened == BRACKET_LIMIT {
            let next = skim(self.columns, self.text, at)?;
            return Some(filter_to(self.columns, self.text, next, 0, true, Ok(false)));
        }
        let inner = self.parse_or(at, negate, opened + 1)?;
        if inner.ahead != Ahead::Closing {
            return None;
        }
        Some(filter_to(
            self.columns,
            self.text,
            inner.past,
            inner.leaves,
            inner.deep,
            inner.answer,
        ))
    }
}
