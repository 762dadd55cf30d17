// The 256 bytes of a page as text: 16 lines with the place, 16 bytes, and what they say in ASCII.
#![tactic(auto, unfolding(append::specs::Sheet::puts, crate::specs::Page::line_text, crate::specs::Page::page_text), using(append::proofs::Laws::texts))]

ghost use Rattle.std.specs.Prelude.{◌≡◌};
ghost use Rattle.append.specs.Lent.{putting};
ghost use Rattle.dump.specs.Page.{ascii_of, head_text, signs_text, line_text, page_text};

use append::Sheet;
use append::number::glyph;
use fields::part::part;

// A printable character as it is, any other byte as a dot.
#[tactic(auto, unfolding(crate::specs::Page::ascii_of))]
fn ascii(x: u8) -> u8
    ensures { result ≡ ascii_of x }
{
    match x {
        32..=126 => x,
        _ => 46,
    }
}

// `7E:1230 `, by the page and the line in it.
fn head(out: &mut Sheet<'_>, page: u16, line: u8)
    ensures { out.new ≡ putting out.old (head_text page line) }
{
    out.push(b'7');
    out.push(glyph((page / 256 % 2) as u8 + 14));
    out.push(b':');
    out.hex_byte((page % 256) as u8);
    out.push(glyph(line));
    out.put(b"0 ");
}

// Bytes as characters.
pub fn signs(out: &mut Sheet<'_>, s: &[u8])
    ensures { out.new ≡ putting out.old (signs_text s.now) }
{
    for c in s {
        out.push(ascii(*c));
    }
}

// The line of up to 16 bytes, with a gap behind the eighth.
fn line(out: &mut Sheet<'_>, page: u16, k: u8, s: &[u8])
    ensures { out.new ≡ putting out.old (line_text page k s.now) }
{
    head(out, page, k);
    out.hexes(b" ", part(s, 0, 8));
    out.put(b" ");
    out.hexes(b" ", part(s, 8, 8));
    out.put(b"  |");
    signs(out, s);
    out.put(b"|\n");
}

// All lines of a page with these bytes.
pub fn dump_page(out: &mut Sheet<'_>, page: u16, s: &[u8])
    ensures { out.new ≡ putting out.old (page_text page s.now) }
{
    for k in 0..16u8 {
        line(out, page, k, part(s, k as usize * 16, 16));
    }
}
