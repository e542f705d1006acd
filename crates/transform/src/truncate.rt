// Truncate of numbers, of strings and of binaries (src/transform/truncate.rs).
ghost use Rattle.std.specs.Prelude.{◌≡◌, length};
ghost use Rattle.transform.specs.Truncate.{first_code_points, first_bytes};
ghost use Rattle.transform.specs.code.TransformAnswers.{truncated_long};

use values::utf8::continues_code_point;

// v less its remainder by width: nothing where the width is 0, or where that falls below the lowest number of 64 bits.
pub fn truncate_i64(v: i64, width: u32) -> Option<i64>
    ensures { result ≡ truncated_long width v }
{
    let rest = v.checked_rem_euclid(i64::from(width))?;
    v.checked_sub(rest)
}

// How many bytes the first width code points of s are.
#[tactic(auto, using(crate::proofs::Passed::all_passed))]
fn prefix_len(s: &[u8], width: u32) -> usize
    ensures { result ≡ length (first_code_points width s.now) }
{
    // The code points that may still begin.
    let mut left = width;
    for (i, b) in s.iter().enumerate() {
        // the first byte begins one, whatever it is
        if i == 0 || !continues_code_point(*b) {
            if left == 0 {
                return i;
            }
            left -= 1;
        }
    }
    s.len()
}

// The first width code points of s, a part of what was lent.
#[tactic(auto, using(crate::specs::laws::StringLaws::first_take, crate::specs::laws::StringLaws::first_length))]
pub fn truncate_str(s: &[u8], width: u32) -> &[u8]
    ensures { result.now ≡ first_code_points width s.now }
{
    &s[..prefix_len(s, width)]
}

// The first width bytes of s, a part of what was lent.
#[tactic(auto, unfolding(crate::specs::Truncate::first_bytes))]
pub fn truncate_binary(s: &[u8], width: u32) -> &[u8]
    ensures { result.now ≡ first_bytes width s.now }
{
    &s[..s.len().min(width as usize)]
}
