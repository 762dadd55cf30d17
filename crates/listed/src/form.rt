// The bytes of a listed call: the machine's as the library has them; then the lengths lent, the call, the fill and patches.
use asbytes::MACHINE_SIZE;
use asbytes::bytes::head_bytes;
use benchfile::row::Row;
use decode::machine_at;
use fields::part::part;
use fields::put;
use fields::word::{byte, four, two};
use ring::Bench;

// Where the lengths lent, the call, the fill and the patches start.
pub const LENT: usize = MACHINE_SIZE;

pub const CALL: usize = LENT + 16;

pub const FILL: usize = CALL + 5;

pub const PATCHES: usize = FILL + 17;
// How many bytes a listed call has.
pub const HEAD: usize = PATCHES + 32;

// What is called, with its numbers.
#[derive(Clone, Copy)]
pub enum Call {
    Fresh { bitcycles: u16 },
    // One master cycle.
    Cycle { event: u8, due: bool, timer: bool },
    // A row of a script, and for a back step the slot of the newest entry, which follows in the list.
    Row { row: Row, newest: Option<u8> },
    Page(u16),
}

impl Call {
    pub fn newest(self) -> Option<u8> {
        match self {
            Call::Row { newest, .. } => newest,
            _ => None,
        }
    }
}

// The lengths lent, and the call. A line begins with the call's kind as it came.
#[derive(Clone, Copy)]
pub struct Listed {
    pub record: usize,
    pub low: usize,
    pub high: usize,
    pub rom: usize,
    pub kind: u8,
    pub call: Call,
}

// The call of a kind. A kind over 8 is a back step whose entry does not follow.
fn call_of(kind: u8, first: u8, word: u16, last: u8) -> Call {
    let alone = |row: Row| Call::Row { row, newest: None };
    match kind {
        0 => Call::Fresh { bitcycles: word },
        1 => Call::Cycle {
            event: first,
            due: last % 2 == 1,
            timer: 2 <= last,
        },
        2 => alone(Row::Read {
            bank: first,
            addr: word,
        }),
        3 => alone(Row::Write {
            bank: first,
            addr: word,
            byte: last,
        }),
        4 => alone(Row::Pad { port: first, word }),
        5 => alone(Row::Plug {
            port: first,
            on: last == 1,
        }),
        6 => alone(Row::Answer {
            addr: word,
            byte: last,
        }),
        7 => Call::Row {
            row: Row::Back { count: 1 },
            newest: Some(first),
        },
        8 => Call::Page(word),
        _ => alone(Row::Back { count: 1 }),
    }
}

pub fn listed_of(head: &[u8]) -> Listed {
    let kind = byte(head, CALL);
    Listed {
        record: four(head, LENT) as usize,
        low: four(head, LENT + 4) as usize,
        high: four(head, LENT + 8) as usize,
        rom: four(head, LENT + 12) as usize,
        kind,
        call: call_of(
            kind,
            byte(head, CALL + 1),
            two(head, CALL + 2),
            byte(head, CALL + 4),
        ),
    }
}

pub fn machine_of(head: &[u8]) -> [u8; MACHINE_SIZE] {
    let mut m = [0u8; MACHINE_SIZE];
    put(&mut m, 0, part(head, 0, MACHINE_SIZE));
    m
}

// The machine by value, whatever its image breaks, so that the bench itself judges it.
pub fn bench_of(bytes: &[u8]) -> Bench {
    Bench {
        machine: machine_at(&head_bytes(bytes)),
        ..asbytes::bytes::bench_of(bytes)
    }
}
