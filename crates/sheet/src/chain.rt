// The walk along the chain of a sheet's records.
ghost use Rattle.std.specs.Prelude.{◌≡◌, suc, ◌*◌, ◌≤◌, ◌<◌, length};
ghost use Rattle.values.specs.Types.{layout};
ghost use Rattle.expr.specs.Operators.{holds_limit};
ghost use Rattle.sheet.specs.Records.{record_size, record_count};
ghost use Rattle.sheet.specs.code.ReadAnswers.{literal_after, walked_as, counted, Stored, records_from};

use crate::literal::is_literal;
use crate::records::RECORD_SIZE;
use expr::operator::HOLDS_LIMIT;
use values::datatypes::PrimitiveType;
use values::error::ErrorKind;
use values::words::u16_at;

// The number of the literal's record after record `at` on its chain: none where the chain ends.
fn literal_after(s: &[u8], column: PrimitiveType, at: usize) -> Result<Option<usize>, ErrorKind>
    requires { at < record_count s.now }
    ensures { result ≡ literal_after (layout column) s.now at }
{
    let next = u16_at(s, RECORD_SIZE * at) as usize;
    if next == 0 {
        return Ok(None);
    }
    if next <= at {
        return Err(ErrorKind::Malformed);
    }
    if s.len() / RECORD_SIZE <= next {
        return Err(ErrorKind::Malformed);
    }
    if is_literal(s, next, column) {
        Ok(Some(next))
    } else {
        Err(ErrorKind::Malformed)
    }
}

// What stands for a broken chain: more literals than any sheet has.
const BROKEN: usize = HOLDS_LIMIT + 1;

// The literals after record `at` on its chain: each is tested, and the number of its record goes into `records`, after the first `filled`. Gives their count, the
// first `filled` included. The document that binds us has the walk as a recursion; what falls is the records left. A plain number, and no Result: that comes back
// through memory, and the compiler then makes no loop of the recursion. Tried: the holds-test of 64 numbers took more than twice as long.
fn count_from(
    s: &[u8],
    column: PrimitiveType,
    at: usize,
    filled: usize,
    records: &mut [u16],
) -> usize
    requires s_len_bound { length s.now ≤ record_size * suc holds_limit }
    requires at_bound { at < record_count s.now }
    requires filled_le_at { filled ≤ at }
    requires holds_limit_in_bounds { holds_limit ≤ length records.old }
    ensures value { result ≡ counted (walked_as filled (records_from (layout column) s.now at)) }
    ensures stored { Stored filled (records_from (layout column) s.now at) records.old records.new }
{
    match literal_after(s, column, at) {
        Err(_) => BROKEN,
        Ok(None) => filled,
        Ok(Some(next)) => {
            records[filled] = next as u16;
            // `&*s` copies address and length one by one, which the next call need not wait for.
            count_from(&*s, column, next, filled + 1, records)
        }
    }
}

// The same, refused where the chain is broken.
#[inline(always)]
pub fn walk(
    s: &[u8],
    column: PrimitiveType,
    at: usize,
    filled: usize,
    records: &mut [u16],
) -> Result<usize, ErrorKind>
    requires s_len_bound { length s.now ≤ record_size * suc holds_limit }
    requires at_bound { at < record_count s.now }
    requires filled_le_at { filled ≤ at }
    requires holds_limit_in_bounds { holds_limit ≤ length records.old }
    ensures value { result ≡ walked_as filled (records_from (layout column) s.now at) }
    ensures stored { Stored filled (records_from (layout column) s.now at) records.old records.new }
{
    let count = count_from(&*s, column, at, filled, records);
    if count == BROKEN {
        return Err(ErrorKind::Malformed);
    }
    Ok(count)
}
