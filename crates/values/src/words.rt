// Little-endian words in a lent slice, unsigned and in two's complement.
ghost use Rattle.std.specs.Prelude.{◌≡◌, ◌+◌, ◌≤◌, length};
ghost use Rattle.values.specs.Words.{field, word, over, le_bytes, signed, unsigned, signed_bytes};

// The N bytes of s from `at` on.
fn bytes_at<const N: usize>(s: &[u8], at: usize) -> [u8; N]
    requires { at + N ≤ length s.now }
    ensures { result ≡ field at N s.now }
{
    *s[at..at + N].as_array().unwrap()
}

pub fn u16_at(s: &[u8], at: usize) -> u16
    requires { at + 2 ≤ length s.now }
    ensures { result ≡ word at 2 s.now }
{
    u16::from_le_bytes(bytes_at(s, at))
}

pub fn u32_at(s: &[u8], at: usize) -> u32
    requires { at + 4 ≤ length s.now }
    ensures { result ≡ word at 4 s.now }
{
    u32::from_le_bytes(bytes_at(s, at))
}

pub fn u64_at(s: &[u8], at: usize) -> u64
    requires { at + 8 ≤ length s.now }
    ensures { result ≡ word at 8 s.now }
{
    u64::from_le_bytes(bytes_at(s, at))
}

// The bits of z.
pub fn bits_of(z: i64) -> u64
    ensures { result ≡ unsigned 8 z }
{
    z.cast_unsigned()
}

pub fn i64_at(s: &[u8], at: usize) -> i64
    requires { at + 8 ≤ length s.now }
    ensures { result ≡ signed 8 (word at 8 s.now) }
{
    u64_at(s, at).cast_signed()
}

pub fn i32_at(s: &[u8], at: usize) -> i32
    requires { at + 4 ≤ length s.now }
    ensures { result ≡ signed 4 (word at 4 s.now) }
{
    u32_at(s, at).cast_signed()
}

// Writes bytes over those of d from `at` on.
fn put(d: &mut [u8], at: usize, bytes: &[u8])
    requires { at + length bytes.now ≤ length d.old }
    ensures { d.new ≡ over at bytes.now d.old }
{
    d[at..at + bytes.len()].copy_from_slice(bytes);
}

pub fn put_u16(d: &mut [u8], at: usize, v: u16)
    requires { at + 2 ≤ length d.old }
    ensures { d.new ≡ over at (le_bytes 2 v) d.old }
{
    put(d, at, &v.to_le_bytes());
}

pub fn put_u32(d: &mut [u8], at: usize, v: u32)
    requires { at + 4 ≤ length d.old }
    ensures { d.new ≡ over at (le_bytes 4 v) d.old }
{
    put(d, at, &v.to_le_bytes());
}

pub fn put_u64(d: &mut [u8], at: usize, v: u64)
    requires { at + 8 ≤ length d.old }
    ensures { d.new ≡ over at (le_bytes 8 v) d.old }
{
    put(d, at, &v.to_le_bytes());
}

pub fn put_i32(d: &mut [u8], at: usize, z: i32)
    requires { at + 4 ≤ length d.old }
    ensures { d.new ≡ over at (signed_bytes 4 z) d.old }
{
    put_u32(d, at, z.cast_unsigned());
}

pub fn put_i64(d: &mut [u8], at: usize, z: i64)
    requires { at + 8 ≤ length d.old }
    ensures { d.new ≡ over at (signed_bytes 8 z) d.old }
{
    put_u64(d, at, bits_of(z));
}
