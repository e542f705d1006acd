// The numbers of what the holds-test answers.
ghost use Rattle.std.specs.Prelude.{◌≡◌};
ghost use Rattle.meets.specs.Tested.{held_number};

use values::error::ErrorKind;

// Document 01's number of the answer.
pub fn held_number(held: Result<bool, ErrorKind>) -> u32
    ensures { result ≡ held_number held }
{
    match held {
        Ok(true) => 0,
        Ok(false) => 1,
        Err(e) => u32::from(e),
    }
}
