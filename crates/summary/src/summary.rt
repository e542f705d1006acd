// A summary: the lowest and the highest of a file's present values, and whether a missing one occurs.
ghost use Rattle.std.specs.Option.{ForSome};
ghost use Rattle.std.specs.Prelude.{◌≡◌};
ghost use Rattle.values.specs.Types.{layout};
ghost use Rattle.summary.specs.Summaries.{flag_of};
ghost use Rattle.summary.specs.code.Fitting.{EndsFit};

use sheet::records::RECORD_SIZE;
use values::datatypes::PrimitiveType;

// Two value records, then a type byte, then a flag byte.
pub const TYPE_AT: usize = RECORD_SIZE * 2;

pub const FLAG_AT: usize = TYPE_AT + 1;

pub const SUMMARY_SIZE: usize = FLAG_AT + 1;

// What the flag byte is a sum of.
pub const HAS_MISSING: u8 = 1;

pub const NONE_PRESENT: u8 = 2;

// The contents of the lowest and of the highest present value, parts of the summary.
#[derive(Clone, Copy)]
pub struct Ends<'a> {
    pub lowest: &'a [u8],
    pub highest: &'a [u8],
}

#[derive(Clone, Copy)]
pub struct Summary<'a> {
    pub column: PrimitiveType,
    pub missing: bool,
    // None where no value is present.
    pub ends: Option<Ends<'a>>,
    pub ghost fitting: { ForSome ends (λ e. EndsFit (layout column) e.lowest.now e.highest.now) },
}

// The flag byte, by whether a missing value occurs, and whether some value is present.
pub fn flag_of(missing: bool, some_present: bool) -> u8
    ensures { result ≡ flag_of missing some_present }
{
    let mark = if missing { HAS_MISSING } else { 0 };
    if some_present {
        mark
    } else {
        mark + NONE_PRESENT
    }
}
