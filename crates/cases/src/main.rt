// Runs the cases on standard input (tools/make-cases) through the routines and program `weighpick`, and prints how many of each group and answer came out right
// and wrong.
#![tactic(auto)]

ghost use Rattle.std.specs.Prelude.{IfOk, ◌≤◌, length};

use cases_judge::judge::{Case, Routine};
use input::read_full;
use std::io;
use std::io::Read;
use values::words::{u16_at, u32_at};

// More cases than there are, so that the run ends whatever it is given.
const MOST_CASES: u32 = 100000;

const HEADER_SIZE: usize = 20;

// Room for the longest input or result whose length a header can say.
const PART_SIZE: usize = 65536;

// What was read: a case, and whether it came out as the papers say; a text, which was printed, before the counts of the cases since the last one; or the end
// of the input.
#[derive(Clone, Copy)]
enum Ran {
    Case(bool),
    Text,
    End,
}

// The cases since the last text.
#[derive(Clone, Copy, Default)]
struct Tally {
    right: u64,
    wrong: u64,
}

impl Tally {
    // One case more.
    fn count(&mut self, is_right: bool) {
        if is_right {
            self.right = self.right.wrapping_add(1);
        } else {
            self.wrong = self.wrong.wrapping_add(1);
        }
    }

    fn print(self, rt: &impl Print) -> io::Result<()> {
        println!(rt; "{} right, {} wrong", self.right, self.wrong)
    }
}

// Reads n bytes, or as many as there are, to the start of a buffer, and gives them.
fn read_part<'a>(
    input: &mut impl Read,
    n: u16,
    buf: &'a mut [u8; PART_SIZE],
) -> io::Result<&'a [u8]>
    ensures { IfOk result (λ part. length part.now ≤ n) }
{
    let came = read_full(input, &mut buf[..n as usize])?;
    Ok(&buf[..came])
}

// Reads a case, its header, its three inputs and its result, and runs it; or prints a text. tools/make-cases says which bytes of a header are what.
fn run(rt: &impl Print, input: &mut impl Read) -> io::Result<Ran> {
    let mut header = [0; HEADER_SIZE];
    if read_full(input, &mut header)? != HEADER_SIZE {
        return Ok(Ran::End);
    }
    let mut first = [0; PART_SIZE];
    let mut second = [0; PART_SIZE];
    let mut third = [0; PART_SIZE];
    let mut result = [0; PART_SIZE];
    let first = read_part(input, u16_at(&header, 10), &mut first)?;
    let second = read_part(input, u16_at(&header, 12), &mut second)?;
    let third = read_part(input, u16_at(&header, 14), &mut third)?;
    let result = read_part(input, u16_at(&header, 16), &mut result)?;
    let Ok(routine) = Routine::try_from(header[1]) else {
        rt.write_all(first)?;
        return Ok(Ran::Text);
    };
    let case = Case {
        routine,
        expected: u32::from(header[2]),
        column_type: header[3],
        transform: header[4],
        width: u32_at(&header, 6),
        lent: u16_at(&header, 18),
        first,
        second,
        third,
        result,
    };
    Ok(Ran::Case(case.is_right()))
}

fn main(rt: HostRuntime) -> io::Result<()> {
    let mut input = rt.stdin();
    let mut counts = Tally::default();
    for _ in 0..MOST_CASES {
        match run(&rt, &mut input)? {
            Ran::Case(is_right) => counts.count(is_right),
            Ran::Text => {
                counts.print(&rt)?;
                counts = Tally::default();
            }
            Ran::End => break,
        }
    }
    Ok(())
}
