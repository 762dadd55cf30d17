// Little-endian numbers at a place of a slice. A byte past the end reads 0.
ghost use Rattle.std.specs.Prelude.{◌≡◌};
ghost use Rattle.fields.specs.Bytes.{byte_at};
ghost use Rattle.fields.specs.Little.{span, field};

use crate::part::part;

pub fn byte(s: &[u8], at: usize) -> u8
    ensures { result ≡ byte_at s.now at }
{
    if at < s.len() { s[at] } else { 0 }
}

// The N bytes from a place on.
pub fn bytes_at<const N: usize>(s: &[u8], at: usize) -> [u8; N]
    ensures { result ≡ span N s.now at }
{
    let there = part(s, at, N);
    let mut b = [0; N];
    for (i, x) in b.iter_mut().enumerate() {
        *x = byte(there, i);
    }
    b
}

// These four stay beside `bytes_at`, which is their one body: their callers name the width.
pub fn two(s: &[u8], at: usize) -> u16
    ensures { result ≡ field 2 s.now at }
{
    u16::from_le_bytes(bytes_at(s, at))
}

pub fn three(s: &[u8], at: usize) -> u32
    ensures { result ≡ field 3 s.now at }
{
    let [a, b, c] = bytes_at::<3>(s, at);
    u32::from_le_bytes([a, b, c, 0])
}

pub fn four(s: &[u8], at: usize) -> u32
    ensures { result ≡ field 4 s.now at }
{
    u32::from_le_bytes(bytes_at(s, at))
}

pub fn eight(s: &[u8], at: usize) -> u64
    ensures { result ≡ field 8 s.now at }
{
    u64::from_le_bytes(bytes_at(s, at))
}
