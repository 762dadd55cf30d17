// A place in work RAM as a person writes it: `$7E:1234`, `7E:1234`, `$7E1234`, `7E1234`.
ghost use Rattle.std.specs.Prelude.{◌≡◌};
ghost use Rattle.dump.specs.Place.{pair_of, offset_of, six_of, bare_of, offset_named};

use fields::part::part;
use fields::word::byte;
use reader::letter::digit;

// The number of two digits in base 16.
#[tactic(auto, unfolding(crate::specs::Place::pair_of))]
fn pair(a: u8, b: u8) -> Option<u8>
    ensures { result ≡ pair_of a b }
{
    match (digit(a), digit(b)) {
        (Some(x), Some(y)) if x < 16 && y < 16 => Some(x * 16 + y),
        _ => None,
    }
}

// The offset of an address in work RAM.
#[tactic(auto, unfolding(crate::specs::Place::offset_of))]
fn offset(bank: u8, high: u8, low: u8) -> Option<u32>
    ensures { result ≡ offset_of bank high low }
{
    match bank {
        0x7E | 0x7F => Some((bank - 0x7E) as u32 * 65536 + high as u32 * 256 + low as u32),
        _ => None,
    }
}

// Two digits of the bank, and four from place k on.
#[tactic(auto, unfolding(crate::specs::Place::six_of))]
fn six(s: &[u8], k: u8) -> Option<u32>
    ensures { result ≡ six_of s.now k }
{
    let at = k as usize;
    let bank = pair(byte(s, 0), byte(s, 1))?;
    let high = pair(byte(s, at), byte(s, at + 1))?;
    let low = pair(byte(s, at + 2), byte(s, at + 3))?;
    offset(bank, high, low)
}

// Six digits, or seven characters with a colon behind the bank.
#[tactic(auto, unfolding(crate::specs::Place::bare_of))]
fn bare(s: &[u8]) -> Option<u32>
    ensures { result ≡ bare_of s.now }
{
    match s.len() {
        6 => six(s, 2),
        7 if byte(s, 2) == b':' => six(s, 3),
        _ => None,
    }
}

// The offset that the text names, under 131,072.
#[tactic(auto, unfolding(crate::specs::Place::offset_named))]
pub fn place(s: &[u8]) -> Option<u32>
    ensures { result ≡ offset_named s.now }
{
    match byte(s, 0) {
        b'$' => bare(part(s, 1, s.len())),
        _ => bare(s),
    }
}
