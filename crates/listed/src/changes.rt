// What is new in a row of bytes: places and bytes.
use append::Sheet;
use append::number::glyph;

// How many digits a place has.
#[derive(Clone, Copy)]
pub enum Digits {
    Two,
    Three,
    Six,
}

// ` m019=14`: a name, the place, and the new byte.
fn change(line: &mut Sheet<'_>, name: u8, digits: Digits, place: usize, byte: u8) {
    line.push(b' ');
    line.push(name);
    put_place(line, digits, place);
    line.push(b'=');
    line.hex_byte(byte);
}

fn put_place(line: &mut Sheet<'_>, digits: Digits, place: usize) {
    match digits {
        Digits::Two => line.hex_byte((place % 256) as u8),
        Digits::Three => {
            line.push(glyph((place / 256 % 16) as u8));
            line.hex_byte((place % 256) as u8);
        }
        Digits::Six => {
            line.hex_byte((place / 65536 % 256) as u8);
            line.hex_word((place % 65536) as u16);
        }
    }
}

// All places where two rows differ; where one has no byte there is nothing to compare.
pub fn changes(line: &mut Sheet<'_>, name: u8, digits: Digits, before: &[u8], after: &[u8]) {
    for (place, (old, new)) in before.iter().zip(after).enumerate() {
        if old != new {
            change(line, name, digits, place, *new);
        }
    }
}
