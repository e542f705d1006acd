// Reads until a buffer is full or the input ends, for the programs. Nothing is read ahead.
#![tactic(auto)]

ghost use Rattle.std.specs.Prelude.{IfOk, OnErr, ◌<◌, ◌≡◌, length, take};
ghost use Rattle.std.specs.Io.{ReadsAtMost};
ghost use Rattle.std.specs.Io.KnownBytes.{Consumes, IsAtEnd};

use std::io;
use std::io::Read;

// Gives how many bytes came to the start of the buffer: the next ones of the input, and fewer than there is room for only where it ended.
pub fn read_full<R: Read>(input: &mut R, buf: &mut [u8]) -> io::Result<usize>
    ensures bound { ReadsAtMost result buf.new }
    ensures bytes { IfOk result (λ n. Consumes (R.remaining input.old) (R.remaining input.new) (take n buf.new)) }
    ensures end { IfOk result (λ n. n < length buf.new → IsAtEnd (R.remaining input.new)) }
    ensures failed { OnErr result (length buf.new ≡ length buf.old) }
{
    let mut done = 0;
    // A loop over reads, whose lengths the input chooses, so that no iterator goes over them; `read_exact` refuses an input that ends early.
    while done < buf.len() {
        let n = input.read(&mut buf[done..])?;
        if n == 0 {
            return Ok(done);
        }
        done += n;
    }
    Ok(done)
}
