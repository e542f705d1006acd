// Byte strings in hexadecimal.
ghost use Rattle.std.specs.Prelude.{◌≡◌, ◌<◌};
ghost use Rattle.arrayvec.specs.ArrayVec.{Extends};
ghost use Rattle.text.specs.code.Room.{HasRoom};
ghost use Rattle.text.specs.Text.{digit, hexadecimal};

use arrayvec::ArrayVec;

// The character of a digit.
pub fn digit_of(v: u8) -> u8
    requires { v < 16 }
    ensures { result ≡ digit v }
{
    if v < 10 { b'0' + v } else { b'a' + (v - 10) }
}

// Writes a byte string. `hex` writes to a buffer of just the text's length, which would be no plainer than two digits for each byte.
pub fn put_hexadecimal<const N: usize>(out: &mut ArrayVec<u8, N>, bs: &[u8])
    requires { HasRoom N out.old (hexadecimal bs.now) }
    ensures { Extends out.old (hexadecimal bs.now) out.new }
{
    if bs.is_empty() {
        out.push(b'-');
    }
    for b in bs {
        out.push(digit_of(*b / 16));
        out.push(digit_of(*b % 16));
    }
}
