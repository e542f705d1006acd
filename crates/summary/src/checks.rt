// What is asked of the ends of a summary that was read.
ghost use Rattle.std.specs.Prelude.{true, ◌≡◌, length};
ghost use Rattle.values.specs.Order.{is_less};
ghost use Rattle.values.specs.Types.{layout, fits};
ghost use Rattle.summary.specs.EndValues.{compare_in, ordered};
ghost use Rattle.summary.specs.code.SummaryAnswers.{ends_in, ends_encoded};

use crate::summary::Summary;
use sheet::content::number_in;
use values::datatypes::PrimitiveType;
use values::order::is_less;
use values::utf8::is_utf8;

// Whether the ends are what their type asks for.
#[inline(always)]
pub fn ends_encoded(file: Summary) -> bool
    ensures { result ≡ ends_encoded file.entry.column (ends_in file.entry.ends) }
{
    match file.ends {
        Some(ends) if file.column == PrimitiveType::String => {
            is_utf8(ends.lowest) && is_utf8(ends.highest)
        }
        _ => true,
    }
}

// Whether the content a is below b, by the order of the values of their type. Inlined, since pooling asks it four times.
#[inline(always)]
#[tactic(auto, using(crate::proofs::OrderedEnds::numbers_below, values::specs::laws::SignedLaws::back))]
pub fn is_below(a: &[u8], b: &[u8], column: PrimitiveType) -> bool
    requires a_fits { fits (layout column) (length a.now) ≡ true }
    requires b_fits { fits (layout column) (length b.now) ≡ true }
    ensures { result ≡ is_less (compare_in column a.now b.now) }
{
    if column.is_bytes() {
        is_less(a, b)
    } else {
        number_in(a) < number_in(b)
    }
}

// Whether the lowest end is not above the highest.
#[inline(always)]
pub fn ends_ordered(file: Summary) -> bool
    ensures { result ≡ ordered (compare_in file.entry.column) (ends_in file.entry.ends) }
{
    match file.ends {
        Some(ends) => !is_below(ends.highest, ends.lowest, file.column),
        None => true,
    }
}
