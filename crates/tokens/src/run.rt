// Bytes of a text, and how many in a row are of one class.
ghost use Rattle.std.specs.Prelude.{◌≡◌, get_or};
ghost use Rattle.std.specs.List.{prefix_len};
ghost use Rattle.values.specs.Characters.{is_letter};
ghost use Rattle.tokens.specs.Tokens.{is_space, is_text};

use values::characters::is_letter;

// The byte at i, and 0 past the end.
pub fn byte(s: &[u8], i: usize) -> u8
    ensures { result ≡ get_or s.now i 0 }
{
    s.get(i).copied().unwrap_or(0)
}

// How many spaces a text begins with.
pub fn leading_spaces(s: &[u8]) -> usize
    ensures { result ≡ prefix_len is_space s.now }
{
    s.iter().take_while(|b| **b == b' ').count()
}

// How many letters.
pub fn leading_letters(s: &[u8]) -> usize
    ensures { result ≡ prefix_len is_letter s.now }
{
    s.iter().take_while(|b| is_letter(**b)).count()
}

// How many bytes before the first quote, or the end.
pub fn leading_text(s: &[u8]) -> usize
    ensures { result ≡ prefix_len is_text s.now }
{
    s.iter().take_while(|b| **b != b'\'').count()
}
