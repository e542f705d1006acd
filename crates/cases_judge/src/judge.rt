// One case: the routine is asked, or the program run, and its answer held against the one that the papers give.
use answers::answer::{Answer, answer_count, answer_number};
use api::holds::holds;
use api::literal::transform_literal;
use api::project::{project, strict_project, strict_project_older};
use files::files::test_summary;
use filter::filter::{filter_project, filter_row, filter_strict_project};
use meets::held::held_number;
use pool::pool::{Pooled, highest_end, lowest_end, pool};
use text::program::print_sheet;

// What a case asks.
#[derive(Clone, Copy)]
pub enum Routine {
    Holds,
    Project,
    StrictProject,
    Transform,
    // Not a routine, but all that program `weighpick` prints.
    Program,
    FilterRow,
    FilterProject,
    FilterStrictProject,
    TestSummary,
    Pool,
    StrictProjectOlder,
}

// What is no case but a text to print has a number among the routines' too.
#[derive(Clone, Copy)]
pub struct IsText;

// By the numbers of tools/make-cases; any other is the transform of one value too.
impl TryFrom<u8> for Routine {
    type Error = IsText;

    fn try_from(number: u8) -> Result<Routine, IsText> {
        match number {
            0 => Ok(Routine::Holds),
            1 => Ok(Routine::Project),
            2 => Ok(Routine::StrictProject),
            4 => Err(IsText),
            5 => Ok(Routine::Program),
            6 => Ok(Routine::FilterRow),
            7 => Ok(Routine::FilterProject),
            8 => Ok(Routine::FilterStrictProject),
            9 => Ok(Routine::TestSummary),
            10 => Ok(Routine::Pool),
            11 => Ok(Routine::StrictProjectOlder),
            _ => Ok(Routine::Transform),
        }
    }
}

// What a lent buffer holds before the call: a byte that steps from place to place, so that bytes that were moved show too.
const FIRST_FILLER: u8 = 165;

const FILLER_STEP: u8 = 7;

// Room for the longest result buffer that a case can say: its length has 16 bits.
const SPACE_SIZE: usize = 65536;

// A routine with its inputs in their order, the number and the result that are expected, type, transform and width of a transform, and how long a result
// buffer is lent.
#[derive(Clone, Copy)]
pub struct Case<'a> {
    pub routine: Routine,
    pub expected: u32,
    pub column_type: u8,
    pub transform: u8,
    pub width: u32,
    pub lent: u16,
    pub first: &'a [u8],
    pub second: &'a [u8],
    pub third: &'a [u8],
    pub result: &'a [u8],
}

// What place i of a lent buffer holds before the call.
fn filler(i: usize) -> u8 {
    FIRST_FILLER.wrapping_add(FILLER_STEP.wrapping_mul((i % 256) as u8))
}

fn fill(out: &mut [u8]) {
    for (i, place) in out.iter_mut().enumerate() {
        *place = filler(i);
    }
}

// Whether a buffer holds what `fill` put there in every place from count on.
fn is_filled_from(count: usize, out: &[u8]) -> bool {
    out.iter()
        .enumerate()
        .skip(count)
        .all(|(i, byte)| *byte == filler(i))
}

// Whether the two ends, one after the other, are these bytes.
fn are_ends(lowest: &[u8], highest: &[u8], ends: &[u8]) -> bool {
    ends.get(..lowest.len()) == Some(lowest) && ends.get(lowest.len()..) == Some(highest)
}

// Whether these bytes are whose the ends are and the flag, a byte each, and then the ends.
fn is_told(pooled: Pooled, lowest: &[u8], highest: &[u8], bytes: &[u8]) -> bool {
    match bytes {
        [whose_lowest, whose_highest, flag, ends @ ..] => {
            u64::from(pooled.lowest) == u64::from(*whose_lowest)
                && u64::from(pooled.highest) == u64::from(*whose_highest)
                && pooled.flag == *flag
                && are_ends(lowest, highest, ends)
        }
        _ => false,
    }
}

impl Case<'_> {
    // Asks one of the five routines that write a result; the test of a summary takes both inputs, the others the first.
    fn ask(self, out: &mut [u8]) -> Answer {
        match self.routine {
            Routine::Project => project(self.first, out),
            Routine::StrictProject => strict_project(self.first, out),
            Routine::StrictProjectOlder => strict_project_older(self.first, out),
            Routine::TestSummary => test_summary(self.first, self.second, out),
            _ => transform_literal(
                self.column_type,
                self.transform,
                self.width,
                self.first,
                out,
            ),
        }
    }

    // Whether such a routine, lent a buffer as long as the case says, gives the number expected, counts and writes the result, and leaves every later byte.
    fn is_written(self) -> bool {
        let mut space = [0; SPACE_SIZE];
        let out = &mut space[..self.lent as usize];
        fill(out);
        let answer = self.ask(out);
        let size = self.result.len();
        answer_number(answer) == self.expected
            && answer_count(answer) == size
            && out.get(..size) == Some(self.result)
            && is_filled_from(size, out)
    }

    // Whether the holds-test gives the number expected; it has no result.
    fn is_held(self) -> bool {
        self.result.is_empty() && held_number(holds(self.first, self.second)) == self.expected
    }

    // Whether one of the three routines of filters does; they have no result.
    fn is_filtered(self) -> bool {
        let held = match self.routine {
            Routine::FilterRow => filter_row(self.first, self.second, self.third),
            Routine::FilterProject => filter_project(self.first, self.second, self.third),
            _ => filter_strict_project(self.first, self.second, self.third),
        };
        self.result.is_empty() && held_number(held) == self.expected
    }

    // Whether the program prints the result for a sheet.
    fn is_printed(self) -> bool {
        print_sheet(self.first).as_slice() == self.result
    }

    // Whether pooling gives the number expected, and hands back the ends; after a refusal they are empty, as the result is.
    fn is_pooled(self) -> bool {
        let lowest = lowest_end(self.first, self.second);
        let highest = highest_end(self.first, self.second);
        match pool(self.first, self.second) {
            Ok(pooled) => self.expected == 0 && is_told(pooled, lowest, highest, self.result),
            Err(e) => u32::from(e) == self.expected && are_ends(lowest, highest, self.result),
        }
    }

    // Whether a case comes out as expected. An input that the routine does not take has to be empty, so that no case passes with bytes that nothing looked at.
    pub fn is_right(self) -> bool {
        match self.routine {
            Routine::FilterRow | Routine::FilterProject | Routine::FilterStrictProject => {
                self.is_filtered()
            }
            _ if !self.third.is_empty() => false,
            Routine::Holds => self.is_held(),
            Routine::Pool => self.is_pooled(),
            Routine::TestSummary => self.is_written(),
            _ if !self.second.is_empty() => false,
            Routine::Program => self.is_printed(),
            _ => self.is_written(),
        }
    }
}
