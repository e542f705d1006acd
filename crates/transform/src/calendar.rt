// The calendar, where the Rust has chrono (src/transform/temporal.rs): a day number hands back its civil year and month, Iceberg's counts
// of both, and the groups of years before it (02, #103).
ghost use Rattle.std.specs.Prelude.{◌≡◌, cond, ◌*◌, ◌/◌, ◌<◌, min};
ghost use Rattle.transform.specs.Count.{count_off};
ghost use Rattle.transform.specs.Gregorian.{month_length};
ghost use Rattle.transform.specs.Calendar.{year_of, month_of};
ghost use Rattle.transform.specs.YearGroups.{InRange, grouped};
ghost use Rattle.transform.specs.code.TransformAnswers.{dated, counted, year_after, leap_after};

// A count of days from 1970-01-01.
#[derive(Clone, Copy)]
pub struct Days(pub i32);

// A year and a month of it, 0 for January.
#[derive(Clone, Copy)]
pub struct Civil {
    pub year: i32,
    pub month0: u32,
}

// The groups of 400, 100, 4 and 1 years from 1 January of year 1 to 1 January of a day's year. Before year 1 the first count is negative; the other
// three are at most 3, 24 and 3.
#[derive(Clone, Copy)]
pub struct YearGroups {
    pub n400: i32,
    pub n100: u32,
    pub n4: u32,
    pub n1: u32,
}

// The ends of the calendar.
const FIRST_DAY: i32 = -96465292;

const LAST_DAY: i32 = 95026236;

// Days from 1 January of year 1 to 1 January 1970.
const DAYS_TO_1970: i64 = 719162;

// The days of a group of years. 400 years have one day more than four times 100, and 4 years one more than four times one: the last group, or year,
// has it, and the count before it is held at 3. 100 years have one day less than 25 times 4: their last group is short, and its count needs no hold.
const DAYS_PER_400_YEARS: i64 = 146097;

const DAYS_PER_100_YEARS: u32 = 36524;

const DAYS_PER_4_YEARS: u32 = 1461;

const DAYS_PER_YEAR: u32 = 365;

impl YearGroups {
    // The year after the groups. The sum fits 64 bits whatever they are.
    pub fn year(self) -> i64
        ensures { result ≡ year_after self }
    {
        let rest = u64::from(self.n100) * 100 + u64::from(self.n4) * 4 + u64::from(self.n1);
        1 + i64::from(self.n400) * 400 + rest as i64
    }

    // Whether that is a leap year: the last of 4 years, but not of 100, unless of 400. `&` and `|` make all three tests, without a branch that a
    // processor would guess badly.
    fn leap(self) -> bool
        requires { InRange self.n100 self.n4 self.n1 }
        ensures { result ≡ leap_after self }
    {
        (self.n1 == 3) & ((self.n4 != 24) | (self.n100 == 3))
    }
}

fn year_length(leap: bool) -> u32
    ensures { result ≡ cond leap 366 365 }
{
    if leap { 366 } else { 365 }
}

// The month of a day of a year, by a February of 30 days; both are counted from 0.
fn month_in(day: u32, leap: bool) -> u32
    requires { day < cond leap 366 365 }
    ensures { result ≡ count_off (month_length leap) 12 0 day }
{
    let length = year_length(leap);
    if day < length - 306 {
        (12 * day + 6) / 367
    } else {
        (12 * (day + 367 - length) + 6) / 367
    }
}

// Outside the calendar a day has none of these.
impl Days {
    // The groups of years before the day's own, the largest counted off first, and its place in the year after them, 0 for 1 January.
    #[tactic(auto, using(crate::proofs::Ends::ends_before, crate::proofs::Ends::ends_after))]
    pub fn year_groups(self) -> Option<(YearGroups, u32)>
        ensures { result ≡ grouped self.0 }
    {
        let d = self.0;
        if !(FIRST_DAY..=LAST_DAY).contains(&d) {
            return None;
        }
        let days = i64::from(d) + DAYS_TO_1970;
        let n400 = days.div_euclid(DAYS_PER_400_YEARS) as i32;
        let in_400 = days.rem_euclid(DAYS_PER_400_YEARS) as u32;
        let n100 = (in_400 / DAYS_PER_100_YEARS).min(3);
        let in_100 = in_400 - n100 * DAYS_PER_100_YEARS;
        let n4 = in_100 / DAYS_PER_4_YEARS;
        let in_4 = in_100 % DAYS_PER_4_YEARS;
        let n1 = (in_4 / DAYS_PER_YEAR).min(3);
        let day = in_4 - n1 * DAYS_PER_YEAR;
        Some((YearGroups { n400, n100, n4, n1 }, day))
    }

    // The day's year, and the month in it.
    pub fn civil(self) -> Option<Civil>
        ensures { result ≡ dated self.0 }
    {
        let (groups, day) = self.year_groups()?;
        let month0 = month_in(day, groups.leap());
        Some(Civil {
            year: groups.year() as i32,
            month0,
        })
    }

    // Iceberg's Year.
    pub fn year(self) -> Option<i32>
        ensures { result ≡ counted year_of self.0 }
    {
        Some(self.civil()?.year - 1970)
    }

    // Iceberg's Month.
    pub fn month(self) -> Option<i32>
        ensures { result ≡ counted month_of self.0 }
    {
        let date = self.civil()?;
        Some((date.year - 1970) * 12 + date.month0 as i32)
    }
}
