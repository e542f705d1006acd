// Reads one sheet from standard input and prints what both projections answer (document 01, "Program `weighpick`").
#![tactic(auto)]

use input::read_full;
use std::io;
use text::program::{INPUT_SIZE, Output, put_sheet};

// An input that is longer than the buffer is cut, and answered 3 as all of it would be.
fn main(rt: HostRuntime) -> io::Result<()> {
    let mut sheet = [0; INPUT_SIZE];
    let n = read_full(&mut rt.stdin(), &mut sheet)?;
    let mut out = Output::new();
    put_sheet(&mut out, &sheet[..n]);
    rt.write_all(out.as_slice())
}
