// Two answers under and, or under or.
ghost use Rattle.std.specs.Prelude.{◌≡◌};
ghost use Rattle.grammar.specs.Filters.{joined};
ghost use Rattle.grammar.specs.laws.FilterLaws.{join_as};

use values::error::ErrorKind;

// Under and where `all`; the left refusal first.
pub fn join_answers(
    all: bool,
    left: Result<bool, ErrorKind>,
    right: Result<bool, ErrorKind>,
) -> Result<bool, ErrorKind>
    ensures { result ≡ joined (join_as all) left right }
{
    let a = left?;
    let b = right?;
    Ok(if all { a && b } else { a || b })
}
