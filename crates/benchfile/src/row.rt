// A script row: 8 bytes, kind first. Events, ports and answer addresses are judged by their calls.
ghost use Rattle.std.specs.Prelude.{◌≡◌};
ghost use Rattle.benchfile.specs.Row.{zeros, formed_row, fields_of, row_of, row_at};

use fields::part::part;
use fields::word::{byte, two};

#[derive(Clone, Copy)]
pub enum Row {
    // `count` cycles; event and flags hold for the first.
    Cycles {
        count: u16,
        event: u8,
        due: bool,
        timer: bool,
    },
    Read {
        bank: u8,
        addr: u16,
    },
    Write {
        bank: u8,
        addr: u16,
        byte: u8,
    },
    Pad {
        port: u8,
        word: u16,
    },
    Plug {
        port: u8,
        on: bool,
    },
    Answer {
        addr: u16,
        byte: u8,
    },
    Back {
        count: u16,
    },
    // No row, or bytes that break the form. No Option: the definitions and theorems of script, walk, tally and tallied
    // take a row with this case.
    Broken,
}

// All bytes from a place on are zero.
fn zero_from(row: &[u8], at: usize) -> bool
    ensures { result ≡ zeros row.now at }
{
    row.iter().skip(at).all(|b| *b == 0)
}

// The form of a row, by its kind.
#[tactic(auto, unfolding(crate::specs::Row::formed_row))]
pub fn formed(row: &[u8]) -> bool
    ensures { result ≡ formed_row row.now }
{
    if row.len() != 8 {
        return false;
    }
    match byte(row, 0) {
        1 => 1 <= two(row, 1) && byte(row, 4) <= 3 && zero_from(row, 5),
        2 | 4 => zero_from(row, 4),
        3 => zero_from(row, 5),
        5 => byte(row, 2) <= 1 && zero_from(row, 3),
        6 => byte(row, 1) == 0 && zero_from(row, 5),
        7 => 1 <= two(row, 1) && zero_from(row, 3),
        _ => false,
    }
}

// What a well-formed row says, by its kind.
#[tactic(auto, unfolding(crate::specs::Row::fields_of))]
fn fields(row: &[u8]) -> Row
    ensures { result ≡ fields_of row.now }
{
    match byte(row, 0) {
        1 => {
            let flags = byte(row, 4);
            Row::Cycles {
                count: two(row, 1),
                event: byte(row, 3),
                due: flags % 2 == 1,
                timer: flags / 2 == 1,
            }
        }
        2 => Row::Read {
            bank: byte(row, 1),
            addr: two(row, 2),
        },
        3 => Row::Write {
            bank: byte(row, 1),
            addr: two(row, 2),
            byte: byte(row, 4),
        },
        4 => Row::Pad {
            port: byte(row, 1),
            word: two(row, 2),
        },
        5 => Row::Plug {
            port: byte(row, 1),
            on: byte(row, 2) == 1,
        },
        6 => Row::Answer {
            addr: two(row, 2),
            byte: byte(row, 4),
        },
        7 => Row::Back { count: two(row, 1) },
        _ => Row::Broken,
    }
}

pub fn row_of(row: &[u8]) -> Row
    ensures { result ≡ row_of row.now }
{
    if formed(row) {
        fields(row)
    } else {
        Row::Broken
    }
}

// Row i of a script, counted from 0; past its last whole row, none.
pub fn row_at(script: &[u8], i: usize) -> Row
    ensures { result ≡ row_at script.now i }
{
    if script.len() / 8 <= i {
        return Row::Broken;
    }
    row_of(part(script, i * 8, 8))
}
