// UTF-8: whether bytes are it, and how many code points they are.
ghost use Rattle.std.specs.Prelude.{◌≡◌, ◌<◌, ◌≤◌, not, List, [], ◌∷◌, length, drop, count_by, option_copied, IfSome};
ghost use Rattle.values.specs.Utf8.{Range, ◌to◌, tail, continues, code_points, utf8};
ghost use Rattle.values.specs.code.Utf8Rests.{follows, follows_on, lowest_second, highest_second};

use crate::words::u64_at;

// Whether a byte goes on with a code point.
pub fn continues_code_point(b: u8) -> bool
    ensures { result ≡ continues b }
{
    matches!(b, 0x80..=0xBF)
}

// What is left after a byte from `low` to `high`; None where another byte or none comes first.
fn after_one(s: &[u8], low: u8, high: u8) -> Option<&[u8]>
    ensures awaited { (rs : List Range) → follows (low to high ∷ rs) s.now ≡ follows_on rs (option_copied result) }
    ensures shorter { IfSome result (λ t. length t.now < length s.now) }
{
    match s {
        [b, later @ ..] if low <= *b && *b <= high => Some(later),
        _ => None,
    }
}

// The same, with one byte more that goes on with the code point.
fn after_two(s: &[u8], low: u8, high: u8) -> Option<&[u8]>
    ensures awaited { (rs : List Range) → follows (low to high ∷ tail ∷ rs) s.now ≡ follows_on rs (option_copied result) }
    ensures shorter { IfSome result (λ t. length t.now < length s.now) }
{
    after_one(after_one(s, low, high)?, 0x80, 0xBF)
}

// And with two.
fn after_three(s: &[u8], low: u8, high: u8) -> Option<&[u8]>
    ensures awaited { (rs : List Range) → follows (low to high ∷ tail ∷ tail ∷ rs) s.now ≡ follows_on rs (option_copied result) }
    ensures shorter { IfSome result (λ t. length t.now < length s.now) }
{
    after_one(after_two(s, low, high)?, 0x80, 0xBF)
}

// The bytes between which the second stands, as values and not as arms that take a second byte each: of those LLVM makes a table of jumps, which is slower.
fn lowest_second(first: u8) -> u8
    ensures { result ≡ lowest_second first }
{
    match first {
        0xE0 => 0xA0,
        0xF0 => 0x90,
        _ => 0x80,
    }
}

fn highest_second(first: u8) -> u8
    ensures { result ≡ highest_second first }
{
    match first {
        0xED => 0x9F,
        0xF4 => 0x8F,
        _ => 0xBF,
    }
}

// What is left after the code point of a first byte and some of the bytes after it; None where these are none.
#[tactic(auto, using(crate::specs::laws::Utf8StepLaws::first_bytes))]
fn after_code_point(first: u8, later: &[u8]) -> Option<&[u8]>
    ensures awaited { utf8 (first ∷ later.now) ≡ follows_on [] (option_copied result) }
    ensures shorter { IfSome result (λ t. length t.now ≤ length later.now) }
{
    // ASCII is told apart before the range of the second byte is asked for: as an arm of the match it would come after that, and be slower.
    if first < 0x80 {
        return Some(later);
    }
    let low = lowest_second(first);
    let high = highest_second(first);
    match first {
        ..=0xC1 => None,
        ..=0xDF => after_one(later, low, high),
        ..=0xEF => after_two(later, low, high),
        ..=0xF4 => after_three(later, low, high),
        _ => None,
    }
}

// The highest bit of each byte of a word, which no byte of ASCII has.
const HIGHEST_BITS: u64 = 0x8080808080808080;

// How many bytes from the start on are ASCII, counted in eights.
fn ascii_words(s: &[u8]) -> usize
    ensures upper_bound { result ≤ length s.now }
    ensures s_value { utf8 (drop result s.now) ≡ utf8 s.now }
{
    for i in 0..s.len() / 8 {
        if u64_at(s, 8 * i) & HIGHEST_BITS != 0 {
            return 8 * i;
        }
    }
    s.len() / 8 * 8
}

// How many bytes from the start on are ASCII, the first of them counted in eights.
#[inline(always)]
fn ascii_bytes(s: &[u8]) -> usize
    ensures upper_bound { result ≤ length s.now }
    ensures s_value { utf8 (drop result s.now) ≡ utf8 s.now }
{
    let mut n = ascii_words(s);
    while n < s.len() && s[n] < 0x80 {
        n += 1;
    }
    n
}

// Whether bytes are UTF-8: read code point by code point.
#[inline(never)]
#[tactic(auto, using(crate::specs::laws::Utf8StepLaws::nothing_left))]
fn are_code_points(s: &[u8]) -> bool
    ensures { result ≡ utf8 s.now }
{
    let mut rest = s;
    while let [first, later @ ..] = rest {
        let Some(next) = after_code_point(*first, later) else {
            return false;
        };
        rest = next;
    }
    true
}

// Whether bytes are UTF-8. What is ASCII, as most are, costs no call.
#[inline(always)]
#[tactic(auto, using(crate::specs::laws::Utf8StepLaws::nothing_left))]
pub fn is_utf8(s: &[u8]) -> bool
    ensures { result ≡ utf8 s.now }
{
    let n = ascii_bytes(s);
    n == s.len() || are_code_points(&s[n..])
}

// How many bytes go on with no code point. A loop, since LLVM makes vector code of it, and none of `filter` with `count`.
fn count_starts(s: &[u8]) -> usize
    ensures { result ≡ count_by (λ b. not (continues b)) s.now }
{
    let mut n = 0;
    for b in s {
        if !continues_code_point(*b) {
            n += 1;
        }
    }
    n
}

// How many code points s has: one begins at the first byte, and at each later byte that goes on with none.
#[tactic(auto, using(crate::specs::laws::Utf8Laws::part_counts))]
pub fn count_code_points(s: &[u8]) -> usize
    ensures { result ≡ length (code_points s.now) }
{
    match s {
        [] => 0,
        [_, later @ ..] => 1 + count_starts(later),
    }
}
