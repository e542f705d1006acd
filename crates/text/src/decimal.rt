// Numbers in decimal.
ghost use Rattle.arrayvec.specs.ArrayVec.{Extends};
ghost use Rattle.text.specs.Text.{digits, decimal};
ghost use Rattle.text.specs.code.Room.{HasRoom};

use crate::output::put_text;
use arrayvec::ArrayVec;
use itoa::Buffer;

// Writes a number without a sign.
#[tactic(auto, using(crate::specs::laws::TextLaws::digits_printed))]
pub fn put_digits<const N: usize>(out: &mut ArrayVec<u8, N>, v: u64)
    requires { HasRoom N out.old (digits v) }
    ensures { Extends out.old (digits v) out.new }
{
    put_text(out, Buffer::new().format(v).as_bytes());
}

// The same for a number with a sign.
#[tactic(auto, using(crate::specs::laws::TextLaws::decimal_printed))]
pub fn put_decimal<const N: usize>(out: &mut ArrayVec<u8, N>, z: i64)
    requires { HasRoom N out.old (decimal z) }
    ensures { Extends out.old (decimal z) out.new }
{
    put_text(out, Buffer::new().format(z).as_bytes());
}
