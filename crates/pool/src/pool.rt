// One summary for two files: whose end is the lowest and whose the highest, the flag, and the ends themselves, each a part of one of the two summaries.
ghost use Rattle.std.specs.Prelude.{◌≡◌, ◌+◌, ◌*◌, ◌≤◌, length};
ghost use Rattle.sheet.specs.Records.{record_size, record_at};
ghost use Rattle.summary.specs.code.SummaryAnswers.{ends_in, summary_of};
ghost use Rattle.pool.specs.Pooling as pooling;
ghost use Rattle.pool.specs.Pooling.{second_where, joined, pool_of};
ghost use Rattle.pool.specs.Handed.{further, whose_record, end_bytes, end_place, lowest_end, highest_end, lowest_place, highest_place, whose_number};

use summary::checks::{ends_encoded, ends_ordered, is_below};
use summary::reader::{read_summary, record_in};
use summary::summary::{Summary, flag_of};
use values::error::ErrorKind;

// Which of the two files an end is of.
#[derive(Clone, Copy)]
pub enum Whose {
    First,
    Second,
}

// The pooled summary: the files whose its ends are, and its flag.
#[derive(Clone, Copy)]
pub struct Pooled {
    pub lowest: Whose,
    pub highest: Whose,
    pub flag: u8,
}

impl Whose {
    // The second file's where it is the better end, so that equal ends are the first's.
    fn second_where(better: bool) -> Whose
        ensures { result ≡ second_where better }
    {
        if better { Whose::Second } else { Whose::First }
    }
}

impl From<Whose> for u64 {
    ghost from_gives = { λ whose n. n ≡ whose_number whose };

    fn from(whose: Whose) -> u64 {
        whose as u64
    }
}

impl Pooled {
    // Whose its record k is: record 0 is the lowest end, record 1 the highest.
    fn whose(self, k: usize) -> Whose
        ensures { result ≡ whose_record k self }
    {
        if k == 0 { self.lowest } else { self.highest }
    }
}

// The pooled summary of two files of one type.
#[inline(always)]
fn join(x: Summary, y: Summary) -> Pooled
    requires { x.column ≡ y.column }
    ensures { result ≡ joined x.entry.column (ends_in x.entry.ends) x.entry.missing (ends_in y.entry.ends) y.entry.missing }
{
    let flag = flag_of(x.missing | y.missing, x.ends.is_some() | y.ends.is_some());
    let (lowest, highest) = match (x.ends, y.ends) {
        (_, None) => (Whose::First, Whose::First),
        (None, Some(_)) => (Whose::Second, Whose::Second),
        (Some(a), Some(b)) => (
            Whose::second_where(is_below(b.lowest, a.lowest, x.column)),
            Whose::second_where(is_below(a.highest, b.highest, x.column)),
        ),
    };
    Pooled {
        lowest,
        highest,
        flag,
    }
}

// 4 of either file, 11 of either, 12, and then the pooled summary.
#[inline(always)]
#[tactic(auto, using(crate::specs::laws::PoolLaws::pool_checks))]
fn pool_read(x: Summary, y: Summary) -> Result<Pooled, ErrorKind>
    ensures { result ≡ pool_of (summary_of x.entry) (summary_of y.entry) }
{
    if !ends_encoded(x) || !ends_encoded(y) {
        return Err(ErrorKind::NotUtf8);
    }
    if !ends_ordered(x) || !ends_ordered(y) {
        return Err(ErrorKind::WrongSummary);
    }
    if x.column != y.column {
        return Err(ErrorKind::DifferentTypes);
    }
    Ok(join(x, y))
}

#[tactic(auto, unfolding(crate::specs::Pooling::pool))]
pub fn pool(first: &[u8], second: &[u8]) -> Result<Pooled, ErrorKind>
    ensures { result ≡ pooling.pool first.now second.now }
{
    let x = read_summary(first)?;
    let y = read_summary(second)?;
    pool_read(x, y)
}

// Record k of the file whose end it is.
fn record_of<'a>(whose: Whose, first: &'a [u8], second: &'a [u8], k: usize) -> &'a [u8]
    requires k_in_bounds { record_size * (k + 1) ≤ length first.now }
    requires k_in_bounds_2 { record_size * (k + 1) ≤ length second.now }
    ensures bytes { result.now ≡ record_at (pooling.of whose first.now second.now) k }
    ensures place { result.ref_ptr ≡ further (record_size * k) (pooling.of whose first.entry.ref_ptr second.entry.ref_ptr) }
{
    match whose {
        Whose::First => record_in(first, k),
        Whose::Second => record_in(second, k),
    }
}

// Record k of the pooled summary, a part of the one whose it is; after a refusal an empty part of the first.
fn end_of<'a>(first: &'a [u8], second: &'a [u8], k: usize) -> &'a [u8]
    requires { k ≤ 1 }
    ensures bytes { result.now ≡ end_bytes k (pooling.pool first.now second.now) first.now second.now }
    ensures place { result.ref_ptr ≡ end_place k (pooling.pool first.now second.now) first.entry.ref_ptr second.entry.ref_ptr }
{
    match pool(first, second) {
        Ok(pooled) => record_of(pooled.whose(k), first, second, k),
        Err(_) => &first[..0],
    }
}

// A routine for each end, with an equation of its own, in place of one that is handed which.
pub fn lowest_end<'a>(first: &'a [u8], second: &'a [u8]) -> &'a [u8]
    ensures bytes { result.now ≡ lowest_end first.now second.now }
    ensures place { result.ref_ptr ≡ lowest_place first.now second.now first.entry.ref_ptr second.entry.ref_ptr }
{
    end_of(first, second, 0)
}

pub fn highest_end<'a>(first: &'a [u8], second: &'a [u8]) -> &'a [u8]
    ensures bytes { result.now ≡ highest_end first.now second.now }
    ensures place { result.ref_ptr ≡ highest_place first.now second.now first.entry.ref_ptr second.entry.ref_ptr }
{
    end_of(first, second, 1)
}
