// The lines that are about a whole row: cycles held, steps taken back, a refusal.
#![tactic(auto, unfolding(append::specs::Sheet::puts, crate::specs::Event::held_text, crate::specs::Event::origin_text, crate::specs::Event::back_text, crate::specs::Event::refused_text), using(append::proofs::Laws::texts, std::proofs::lemmas::Bool::Decides::nat_tests))]

ghost use Rattle.std.specs.Prelude.{◌≡◌};
ghost use Rattle.append.specs.Lent.{putting};
ghost use Rattle.touch.specs.Reach.{spot_number};
ghost use Rattle.listing.specs.Event.{held_text, origin_text, back_text, refused_text, end_text};

use crate::line::head;
use append::Sheet;
use wording::words;

// Only where every byte of work RAM is looked at.
#[tactic(auto, unfolding(append::specs::Sheet::puts, crate::specs::Event::held_text), using(append::proofs::Laws::texts))]
pub fn put_held(out: &mut Sheet<'_>, row: u64, clock: u64, only: Option<u32>, held: u16, count: u16)
    ensures { out.new ≡ putting out.old (held_text row clock (spot_number only) held count) }
{
    if only.is_none() {
        head(out, row, clock);
        out.put(b"CPU     held ");
        out.decimal(held as u64);
        out.put(b" of ");
        out.decimal(count as u64);
        out.put(b" cycles\n");
    }
}

// The row of an operation, and how many cycles of the row came before it.
fn put_origin(out: &mut Sheet<'_>, origin: u32)
    ensures { out.new ≡ putting out.old (origin_text origin) }
{
    let row = (origin / 65536) as u64;
    let cycle = (origin % 65536) as u64;
    if cycle == 0 {
        out.put(b"before row ");
        out.decimal(row);
    } else {
        out.put(b"after cycle ");
        out.decimal(cycle);
        out.put(b" of row ");
        out.decimal(row);
    }
}

// `steps` of `count` back steps were accepted; the last took back the operation of `origin`.
pub fn put_back(out: &mut Sheet<'_>, row: u64, clock: u64, steps: u32, count: u16, origin: u32)
    ensures { out.new ≡ putting out.old (back_text row clock steps count origin) }
{
    if steps != 0 {
        head(out, row, clock);
        out.put(b"back    ");
        out.decimal(steps as u64);
        out.put(b" of ");
        out.decimal(count as u64);
        out.put(b" steps, to ");
        put_origin(out, origin);
        out.push(b'\n');
    }
}

// Nothing for an accepted row.
pub fn put_refused(out: &mut Sheet<'_>, row: u64, clock: u64, number: u8)
    ensures { out.new ≡ putting out.old (refused_text row clock number) }
{
    if number != 0 {
        head(out, row, clock);
        out.put(b"refusal ");
        out.decimal(number as u64);
        out.put(b": ");
        words(out, number);
        out.push(b'\n');
    }
}

// The end of a row of cycles: a refusal, or after the last cycle how many were held. A refusal is a number, 0 for none: `words` has words for
// any number, and a Refusal would ask more of the caller.
#[tactic(auto, unfolding(append::specs::Sheet::puts, crate::specs::Event::end_text), using(std::proofs::lemmas::Bool::Decides::nat_tests))]
pub fn put_end(
    out: &mut Sheet<'_>,
    row: u64,
    clock: u64,
    only: Option<u32>,
    number: u8,
    held: u16,
    done: u16,
    count: u16,
)
    ensures { out.new ≡ putting out.old (end_text row clock (spot_number only) number held done count) }
{
    if number != 0 {
        put_refused(out, row, clock, number);
    } else if count <= done {
        put_held(out, row, clock, only, held, count);
    }
}
