// What a routine that writes a result answers.
ghost use Rattle.std.specs.Prelude.{◌≡◌};
ghost use Rattle.answers.specs.Answers.{answer_number, answer_count};

use sheet::records::RECORD_SIZE;
use values::error::ErrorKind;

// The bytes of a record, as they are counted in an answer.
pub const RECORD: u16 = RECORD_SIZE as u16;

// Why a routine that writes a result refuses.
#[derive(Clone, Copy, PartialEq, Eq)]
pub enum Refusal {
    BufferTooSmall,
    Kind(ErrorKind),
}

impl From<ErrorKind> for Refusal {
    ghost use Rattle.answers.specs.declared.answer.Refusal.TheVariants.{Kind};

    ghost from_gives = { λ e r. r ≡ Kind e };

    fn from(e: ErrorKind) -> Refusal {
        Refusal::Kind(e)
    }
}

// How many bytes of the buffer are the result; none where there is no predicate; or the refusal. 16 bits hold the longest, and keep an answer small.
pub type Answer = Result<Option<u16>, Refusal>;

// Document 01's number of the answer.
pub fn answer_number(answer: Answer) -> u32
    ensures { result ≡ answer_number answer }
{
    match answer {
        Ok(Some(_)) => 0,
        Ok(None) => 1,
        Err(Refusal::BufferTooSmall) => 2,
        Err(Refusal::Kind(e)) => u32::from(e),
    }
}

// How many bytes were written.
pub fn answer_count(answer: Answer) -> usize
    ensures { result ≡ answer_count answer }
{
    match answer {
        Ok(Some(n)) => n as usize,
        _ => 0,
    }
}
