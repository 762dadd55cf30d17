// What is printed by row: the line of a trace and of the sums, and the refusals in words.
#![tactic(auto)]

pub mod line;

ghost use Rattle.std.specs.Prelude.{◌≡◌};
ghost use Rattle.append.specs.Lent.{putting};
ghost use Rattle.wording.specs.Words.{words_of};

use append::Sheet;

// Document 01's table, in its order; 13 and 14 are document 02's.
#[tactic(auto, unfolding(crate::specs::Words::words_of))]
pub fn words(out: &mut Sheet<'_>, number: u8)
    ensures { out.new ≡ putting out.old (words_of number) }
{
    match number {
        1 => out.put(b"a work RAM slice is not 65536 bytes"),
        2 => out.put(b"the record's length is wrong"),
        3 => out.put(b"the ROM is too long"),
        4 => out.put(b"the machine breaks its ranges"),
        5 => out.put(b"event over 4"),
        6 => out.put(b"port over 1, or answer outside $2134-$213F and $2140-$2143"),
        7 => out.put(b"the clock is at its end"),
        8 => out.put(b"back with no operation kept"),
        9 => out.put(b"the newest entry breaks its ranges"),
        10 => out.put(b"bit cycles outside 1 to 4096"),
        11 => out.put(b"no bench file"),
        13 => out.put(b"a total would pass 2^64 - 1"),
        14 => out.put(b"more than 256 files"),
        _ => out.put(b"page over 511"),
    }
}
