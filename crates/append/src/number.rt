// Numbers as text.
ghost use Rattle.std.specs.Prelude.{◌≡◌};
ghost use Rattle.append.specs.Number.{glyph_of};

use crate::Sheet;

#[tactic(auto, unfolding(crate::specs::Number::glyph_of))]
// The sign of a digit, in base 16; of a larger number, of its last digit. std's Display gives numbers as text too, but promises no bytes.
pub fn glyph(x: u8) -> u8
    ensures { result ≡ glyph_of x }
{
    let d = x % 16;
    if d < 10 { d + 48 } else { d + 55 }
}

impl<'a> Sheet<'a> {
    ghost use Rattle.std.specs.Prelude.{replicate};
    ghost use Rattle.append.specs.Lent.{putting};
    ghost use Rattle.append.specs.Number.{hex_byte, hex_word};
    ghost use Rattle.append.specs.Number.{hexes as Number·hexes, decimal as Number·decimal, padded as Number·padded};

    // A byte in base 16.
    #[tactic(auto, unfolding(crate::specs::Sheet::puts))]
    pub fn hex_byte(&mut self, x: u8)
        ensures { self.new ≡ putting self.old (hex_byte x) }
    {
        self.push(glyph(x / 16));
        self.push(glyph(x));
    }

    // A word in base 16.
    #[tactic(auto, unfolding(crate::specs::Sheet::puts))]
    pub fn hex_word(&mut self, x: u16)
        ensures { self.new ≡ putting self.old (hex_word x) }
    {
        self.hex_byte((x / 256) as u8);
        self.hex_byte((x % 256) as u8);
    }

    // Bytes in base 16, each behind `before`.
    #[tactic(auto, unfolding(crate::specs::Sheet::puts), using(crate::proofs::Laws::texts))]
    pub fn hexes(&mut self, before: &[u8], s: &[u8])
        ensures { self.new ≡ putting self.old (Number·hexes before.now s.now) }
    {
        for x in s {
            self.put(before);
            self.hex_byte(*x);
        }
    }

    // A number in decimal.
    #[tactic(auto, using(crate::proofs::Decimal::spelled_u64))]
    pub fn decimal(&mut self, n: u64)
        ensures { self.new ≡ putting self.old (Number·decimal n) }
    {
        let mut digits = [0u8; 20];
        let k = io::decimal(n, &mut digits);
        self.put(&digits[..k]);
    }

    #[tactic(auto, unfolding(crate::specs::Sheet::puts), using(crate::proofs::Laws::put_again))]
    fn spaces(&mut self, n: usize)
        ensures { self.new ≡ putting self.old (replicate n 32) }
    {
        for _ in 0..n {
            self.push(b' ');
        }
    }

    // A number in decimal at the right of a column; one that is longer takes what it needs.
    #[tactic(auto, unfolding(crate::specs::Sheet::puts), using(crate::proofs::Decimal::put_column))]
    pub fn padded(&mut self, n: u64, width: usize)
        ensures { self.new ≡ putting self.old (Number·padded width n) }
    {
        let mut digits = [0u8; 20];
        let k = io::decimal(n, &mut digits);
        self.spaces(width.saturating_sub(k));
        self.put(&digits[..k]);
    }
}
