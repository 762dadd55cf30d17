// Characters: what each does in a line, and the value of digits and letters.
ghost use Rattle.std.specs.Prelude.{◌≡◌};
ghost use Rattle.reader.specs.Letter.{sign_of, digit_of};

use crate::sign::Sign;

#[tactic(auto, unfolding(crate::specs::Letter::sign_of))]
pub fn sign(c: u8) -> Sign
    ensures { result ≡ sign_of c }
{
    match c {
        b'\n' => Sign::LineEnd,
        b';' => Sign::Comment,
        b' ' | b'\t' | b'\r' | b',' | b'=' => Sign::Space,
        b'$' => Sign::Dollar,
        b':' => Sign::Colon,
        _ => Sign::Other,
    }
}

// 0 to 9, then letters from 10 on, small and large alike.
#[tactic(auto, unfolding(crate::specs::Letter::digit_of))]
pub fn digit(c: u8) -> Option<u8>
    ensures { result ≡ digit_of c }
{
    match c {
        b'0'..=b'9' => Some(c - b'0'),
        b'A'..=b'Z' => Some(c - b'A' + 10),
        b'a'..=b'z' => Some(c - b'a' + 10),
        _ => None,
    }
}
