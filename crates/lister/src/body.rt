// The bytes of a fill or a ROM, 16 to a line.
#![tactic(auto, unfolding(append::specs::Sheet::puts, crate::specs::Body::lines_text), using(append::proofs::Laws::texts, crate::proofs::Lines::line_some, crate::proofs::Lines::line_none))]

ghost use Rattle.std.specs.Prelude.{◌≡◌};
ghost use Rattle.append.specs.Lent.{putting};
ghost use Rattle.lister.specs.Body.{line_text, lines_text};

use append::Sheet;
use fields::part::part;

// `fill $5A $00`; no bytes, no line.
fn line(out: &mut Sheet<'_>, word: &[u8], s: &[u8])
    ensures { out.new ≡ putting out.old (line_text word.now s.now) }
{
    if !s.is_empty() {
        out.put(word);
        out.hexes(b" $", s);
        out.push(b'\n');
    }
}

// All bytes of a section.
pub fn lines(out: &mut Sheet<'_>, word: &[u8], s: &[u8])
    ensures { out.new ≡ putting out.old (lines_text word.now s.now) }
{
    for k in 0..s.len() / 16 + 1 {
        line(out, word, part(s, k * 16, 16));
    }
}
