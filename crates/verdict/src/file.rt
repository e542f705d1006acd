// The verdict on a file by its summary, for a sheet that was read.
ghost use Rattle.std.specs.Prelude.{true, false, not, ◌&&◌, ◌||◌, ◌≡◌};
ghost use Rattle.values.specs.SomeEvery.{some};
ghost use Rattle.values.specs.Types.{layout};
ghost use Rattle.values.specs.code.ByteTypes.{is_bytes};
ghost use Rattle.expr.specs.Holds.{number_tests, present_meets};
ghost use Rattle.meets.specs.code.Leaves.{number_leaf, content_leaf};
ghost use Rattle.summary.specs.EndValues.{compare_in, ordered};
ghost use Rattle.summary.specs.code.SummaryAnswers.{ends_in, summary_of};
ghost use Rattle.ends.specs.RuledOut.{ruled_out};
ghost use Rattle.verdict.specs.Judged.{judged};
ghost use Rattle.verdict.specs.TextVerdicts.{text_verdict};
ghost use Rattle.verdict.specs.Verdicts.{values_in, number_verdict};
ghost use Rattle.verdict.specs.code.VerdictAnswers.{number_ends};

use crate::verdict::Verdict;
use ends::numbers::some_meets;
use ends::texts::rules_out;
use expr::test::missing_holds;
use sheet::content::number_in;
use sheet::sheet::Sheet;
use summary::checks::{ends_encoded, ends_ordered};
use summary::summary::Summary;
use values::error::ErrorKind;

// Whether some value of a file of numbers meets a sheet's operator with its literals: a missing one, of which that is told, or a present one.
fn some_number_meets(x: &Sheet, missing: bool, file: &Summary) -> bool
    requires numbers { is_bytes (layout file.now.column) ≡ false }
    requires in_order { ordered (compare_in file.now.column) (ends_in file.now.ends) ≡ true }
    ensures { result ≡ (file.now.missing && missing || some (present_meets number_tests (number_leaf x.now)) (values_in (number_ends file.now))) }
{
    match file.ends {
        Some(ends) => {
            file.missing && missing
                || some_meets(x, number_in(ends.lowest), number_in(ends.highest))
        }
        None => file.missing && missing,
    }
}

// The verdict on a file of numbers.
#[tactic(auto, using(crate::specs::laws::OperatorVerdictLaws::by_operator))]
fn judge_numbers(x: &Sheet, file: &Summary) -> Verdict
    requires numbers { is_bytes (layout file.now.column) ≡ false }
    requires in_order { ordered (compare_in file.now.column) (ends_in file.now.ends) ≡ true }
    ensures { result ≡ number_verdict (number_leaf x.now) (number_ends file.now) file.now.missing }
{
    let missing = missing_holds(x.operator);
    // A present value meets the negated operator where it does not meet this one. That need not hold of a missing one, which is asked apart.
    let opposite = Sheet {
        operator: x.operator.negate(),
        transform: x.transform,
        literals: x.literals,
    };
    Verdict::of(
        some_number_meets(x, missing, file),
        some_number_meets(&opposite, !missing, file),
    )
}

// Whether some value of a file of byte strings may meet a sheet's operator with its literals.
fn some_text_may_meet(x: &Sheet, missing: bool, file: &Summary) -> bool
    requires bytes { is_bytes (layout file.now.column) ≡ true }
    requires in_order { ordered (compare_in file.now.column) (ends_in file.now.ends) ≡ true }
    ensures { result ≡ (file.now.missing && missing || not (ruled_out (content_leaf x.now) (ends_in file.now.ends))) }
{
    match file.ends {
        Some(ends) => file.missing && missing || !rules_out(x, ends.lowest, ends.highest),
        None => file.missing && missing,
    }
}

// The verdict on a file of byte strings, which is never taken whole.
#[tactic(auto, using(expr::specs::laws::HoldsLaws::missing_leaf), unfolding(crate::specs::TextVerdicts::text_verdict))]
fn judge_bytes(x: &Sheet, file: &Summary) -> Verdict
    requires bytes { is_bytes (layout file.now.column) ≡ true }
    requires in_order { ordered (compare_in file.now.column) (ends_in file.now.ends) ≡ true }
    ensures { result ≡ text_verdict (content_leaf x.now) (ends_in file.now.ends) file.now.missing }
{
    Verdict::unless_ruled_out(some_text_may_meet(x, missing_holds(x.operator), file))
}

// 4, then 11, then the verdict.
#[tactic(auto, using(crate::proofs::SheetChecks::sheet_checks))]
pub fn judge(x: Sheet, file: Summary) -> Result<Verdict, ErrorKind>
    ensures { result ≡ judged x.entry.literals.column (content_leaf x.entry) (summary_of file.entry) }
{
    if !x.literals.are_encoded() || !ends_encoded(file) {
        return Err(ErrorKind::NotUtf8);
    }
    if x.literals.column != file.column || !ends_ordered(file) {
        return Err(ErrorKind::WrongSummary);
    }
    if file.column.is_bytes() {
        Ok(judge_bytes(&x, &file))
    } else {
        Ok(judge_numbers(&x, &file))
    }
}
