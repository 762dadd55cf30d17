// The line of one access.
#![tactic(auto, unfolding(append::specs::Sheet::puts, crate::specs::Line::head_text, crate::specs::Line::access_text), using(append::proofs::Laws::texts))]

ghost use Rattle.std.specs.Prelude.{◌≡◌};
ghost use Rattle.append.specs.Lent.{putting};
ghost use Rattle.touch.specs.Reach.{spot_number, reach_seen};
ghost use Rattle.listing.specs.Line.{line_seen, head_text, who_text, verb_text, address_text, place_text, spot_text, own_text, zero_text, shows, access_text};

use append::Sheet;
use append::number::glyph;
use bus::access::Access;
use touch::reach::Reach;
use touch::who::Who;

// Where a line stands and who it is about; `only` is the one byte of work RAM that is looked at, `None` for all of them.
#[derive(Clone, Copy)]
pub struct Line {
    pub row: u64,
    pub clock: u64,
    pub only: Option<u32>,
    pub who: Who,
}

// The row and the clock, each in its column.
pub fn head(out: &mut Sheet<'_>, row: u64, clock: u64)
    ensures { out.new ≡ putting out.old (head_text row clock) }
{
    out.padded(row, 5);
    out.push(b' ');
    out.padded(clock, 10);
    out.put(b"  ");
}

// `HDMA 3  `
fn put_who(out: &mut Sheet<'_>, who: Who)
    ensures { out.new ≡ putting out.old (who_text who) }
{
    match who {
        Who::Cpu => out.put(b"CPU     "),
        Who::Dma { channel } => out.put(&[
            b'D',
            b'M',
            b'A',
            b' ',
            glyph(channel),
            b' ',
            b' ',
            b' ',
        ]),
        Who::Hdma { channel } => out.put(&[
            b'H',
            b'D',
            b'M',
            b'A',
            b' ',
            glyph(channel),
            b' ',
            b' ',
        ]),
    }
}

fn put_verb(out: &mut Sheet<'_>, write: bool)
    ensures { out.new ≡ putting out.old (verb_text write) }
{
    out.put(if write { b"write " } else { b"read  " });
}

// `$00:4302 = $10`
fn put_address(out: &mut Sheet<'_>, a: Access)
    ensures { out.new ≡ putting out.old (address_text a) }
{
    out.push(b'$');
    out.hex_byte(a.bank);
    out.push(b':');
    out.hex_word(a.addr);
    out.put(b" = $");
    out.hex_byte(a.byte);
}

// `  at $7E:1234`
fn put_place(out: &mut Sheet<'_>, spot: u32)
    ensures { out.new ≡ putting out.old (place_text spot) }
{
    out.put(b"  at $7");
    out.push(glyph((spot / 65536 % 2) as u8 + 14));
    out.push(b':');
    out.hex_byte((spot / 256 % 256) as u8);
    out.hex_byte((spot % 256) as u8);
}

// The byte of work RAM, where there is one: two banks of 65,536 bytes.
#[tactic(auto, using(append::proofs::Laws::puts_none))]
fn put_spot(out: &mut Sheet<'_>, spot: Option<u32>)
    ensures { out.new ≡ putting out.old (spot_text (spot_number spot)) }
{
    match spot {
        Some(at) if at < 131072 => put_place(out, at),
        _ => {}
    }
}

#[tactic(auto, using(append::proofs::Laws::puts_none))]
fn put_own(out: &mut Sheet<'_>, own: bool)
    ensures { out.new ≡ putting out.old (own_text own) }
{
    if own {
        out.put(b"  ! rewrites its own channel");
    }
}

#[tactic(auto, using(append::proofs::Laws::puts_none))]
fn put_zero(out: &mut Sheet<'_>, zero: bool)
    ensures { out.new ≡ putting out.old (zero_text zero) }
{
    if zero {
        out.put(b"  ! byte count 0: 65536 bytes");
    }
}

// Whether an access of a spot is listed: every one, or those of the one byte that is looked at.
#[tactic(auto)]
fn shows(only: Option<u32>, spot: Option<u32>) -> bool
    ensures { result ≡ shows (spot_number only) (spot_number spot) }
{
    only.is_none() || only == spot
}

// The whole line, unless another byte of work RAM is looked at. `zero` marks the start of a transfer with byte count 0.
pub fn put_access(out: &mut Sheet<'_>, l: Line, a: Access, r: Reach, zero: bool)
    ensures { out.new ≡ putting out.old (access_text (line_seen l) a (reach_seen r) zero) }
{
    if shows(l.only, r.spot) {
        head(out, l.row, l.clock);
        put_who(out, l.who);
        put_verb(out, a.write);
        put_address(out, a);
        put_spot(out, r.spot);
        put_own(out, r.own);
        put_zero(out, zero);
        out.push(b'\n');
    }
}
