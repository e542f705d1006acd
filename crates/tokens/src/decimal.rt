// The number that digits are, as far as 64 bits hold it.
ghost use Rattle.std.specs.Prelude.{◌≡◌, ◌+◌, ◌*◌, ◌<◌};
ghost use Rattle.tokens.specs.code.TokenAnswers.{capped, digits_of};

use values::characters::is_digit;

// One more than 2^63, for every number from there on: neither it nor its negative is one of 64 bits.
const TOO_LARGE: u64 = 9223372036854775809;

// What digits come to, and how many they are.
#[derive(Clone, Copy, PartialEq, Eq)]
pub struct Digits {
    pub magnitude: u64,
    pub len: usize,
}

// What digits come to with one more. Ten times a number above a tenth of `TOO_LARGE` is more than that, and may be more than a `u64` holds. A test, since
// saturating arithmetic takes longer: tried, a quarter of the time of a text of digits.
fn with_digit(magnitude: u64, digit: u8) -> u64
    requires { digit < 10 }
    ensures { result ≡ capped (10 * magnitude + digit) }
{
    if magnitude > TOO_LARGE / 10 {
        TOO_LARGE
    } else {
        10 * magnitude + digit as u64
    }
}

// The digits that a text begins with, of any count.
pub fn leading_digits(s: &[u8]) -> Digits
    ensures { result ≡ digits_of s.now }
{
    let mut magnitude: u64 = 0;
    for (len, b) in s.iter().enumerate() {
        if !is_digit(*b) {
            return Digits { magnitude, len };
        }
        magnitude = with_digit(magnitude, *b - b'0');
    }
    Digits {
        magnitude,
        len: s.len(),
    }
}
