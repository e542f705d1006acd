// The calendar under C's names, for the run over every day (compare/calendar). The library of weighpick has no such names.
#![tactic(auto)]

ghost use Rattle.std.specs.Prelude.{cond, ◌≡◌};
ghost use Rattle.transform.specs.Calendar.{in_calendar, civil_year, civil_month};
ghost use Rattle.transform.specs.YearGroups.{count400, count100, count4, count1, day_in_year};

use transform::calendar::Days;

// 1 for a day of the calendar, with its groups of years and its place in its year set; else 0, with nothing set.
#[unsafe(no_mangle)]
pub extern "C" fn calendar_year_groups(
    day: i32,
    n400: &mut i32,
    n100: &mut u32,
    n4: &mut u32,
    n1: &mut u32,
    place: &mut u32,
) -> u32
    ensures inside { result ≡ cond (in_calendar day) 1 0 }
    ensures of400 { n400.new ≡ cond (in_calendar day) (count400 day) n400.old }
    ensures of100 { n100.new ≡ cond (in_calendar day) (count100 day) n100.old }
    ensures of4 { n4.new ≡ cond (in_calendar day) (count4 day) n4.old }
    ensures of1 { n1.new ≡ cond (in_calendar day) (count1 day) n1.old }
    ensures left { place.new ≡ cond (in_calendar day) (day_in_year day) place.old }
{
    let Some((groups, left)) = Days(day).year_groups() else {
        return 0;
    };
    *n400 = groups.n400;
    *n100 = groups.n100;
    *n4 = groups.n4;
    *n1 = groups.n1;
    *place = left;
    1
}

// 1 for a day of the calendar, with its year and month set; else 0, with nothing set.
#[unsafe(no_mangle)]
pub extern "C" fn calendar_civil(day: i32, year: &mut i32, month0: &mut u32) -> u32
    ensures inside { result ≡ cond (in_calendar day) 1 0 }
    ensures years { year.new ≡ cond (in_calendar day) (civil_year day) year.old }
    ensures months { month0.new ≡ cond (in_calendar day) (civil_month day) month0.old }
{
    let Some(date) = Days(day).civil() else {
        return 0;
    };
    *year = date.year;
    *month0 = date.month0;
    1
}
