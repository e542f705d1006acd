// The rest of a bracket, passed over in one loop: nothing in it is answered.
ghost use Rattle.std.specs.Prelude.{◌≡◌, ◌≤◌, length, drop};
ghost use Rattle.columns.specs.code.ColumnAnswers.{columns_in};
ghost use Rattle.leaves.specs.Symbols.{symbols};
ghost use Rattle.parse.specs.code.SkimAnswers.{SkimsTo};

use columns::list::Columns;
use leaves::symbol::{Symbol, symbol_at};

// The rest of a bracket from a place on, where an operand is expected: where the text after it begins, if it closes.
pub fn skim(columns: Columns, text: &[u8], at: usize) -> Option<usize>
    requires { at ≤ length text.now }
    ensures { SkimsTo (λ k. symbols (columns_in columns.entry.list.now) (drop k text.now)) (length text.now) at result }
{
    let mut here = at;
    // Whether an operand is expected, and not a word between two.
    let mut expected = true;
    // The brackets that are open within this one.
    let mut depth: usize = 0;
    loop {
        let (symbol, next) = symbol_at(columns, text, here);
        match (expected, symbol) {
            (true, Symbol::Leaf(_)) => expected = false,
            (true, Symbol::Not) => {}
            (true, Symbol::Opening) => depth += 1,
            (false, Symbol::And | Symbol::Or) => expected = true,
            (false, Symbol::Closing) => {
                if depth == 0 {
                    return Some(next);
                }
                depth -= 1;
            }
            _ => return None,
        }
        here = next;
    }
}
