// A text, as far as it is written.
ghost use Rattle.arrayvec.specs.ArrayVec.{Extends};
ghost use Rattle.text.specs.code.Room.{HasRoom};

use api::project::SHEET_BUFFER;
use arrayvec::ArrayVec;

// So many bytes hold both lines, whatever the sheet is: a line has at most two characters for each byte of the longest answer.
pub const OUTPUT_SIZE: usize = 4 * SHEET_BUFFER;

pub type Output = ArrayVec<u8, OUTPUT_SIZE>;

// Writes a text as it is. This and the other writers take a vector of any room, as long as the text finds room in it.
pub fn put_text<const N: usize>(out: &mut ArrayVec<u8, N>, text: &[u8])
    requires { HasRoom N out.old text.now }
    ensures { Extends out.old text.now out.new }
{
    out.try_extend_from_slice(text).unwrap();
}
