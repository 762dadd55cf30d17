// A listed call made on the bench. What it answers stands in one form, whichever call it was.
use crate::form::{Call, Listed, bench_of};
use crate::lay::{BANK, RECORD};
use asbytes::MACHINE_SIZE;
use asbytes::bytes::store;
use bench::fresh::fresh;
use bench::operate::{CycleAnswer, cycle};
use bench::page::page_part;
use benchfile::row::Row;
use bus::access::{Log, no_log};
use common::refusal::Refusal;
use ring::Bench;
use script::repeat::Ran;
use script::rig::Rig;
use script::row::run_row;

// Why the call was refused, if it was; held, edge, byte and cost; the machine's bytes after the call; its accesses.
#[derive(Clone, Copy)]
pub struct Made {
    pub refusal: Option<Refusal>,
    pub held: bool,
    pub edge: bool,
    pub byte: u8,
    pub cost: u8,
    pub after: [u8; MACHINE_SIZE],
    pub log: Log,
}

fn bytes_of(b: Bench) -> [u8; MACHINE_SIZE] {
    let mut m = [0u8; MACHINE_SIZE];
    store(&mut m, b);
    m
}

fn quiet(refusal: Option<Refusal>, after: [u8; MACHINE_SIZE]) -> Made {
    Made {
        refusal,
        held: false,
        edge: false,
        byte: 0,
        cost: 0,
        after,
        log: no_log(),
    }
}

fn cycle_made(r: CycleAnswer) -> Made {
    Made {
        held: r.held,
        edge: r.edge,
        log: r.log,
        ..quiet(None, bytes_of(r.bench))
    }
}

// A read has its byte in A; reads and writes have their cost in B. An accepted back step counts itself in A.
fn row_made(row: Row, r: Ran, after: [u8; MACHINE_SIZE]) -> Made {
    let read = matches!(row, Row::Read { .. });
    Made {
        byte: if read { (r.a % 256) as u8 } else { 0 },
        cost: (r.b % 256) as u8,
        ..quiet(r.refusal, after)
    }
}

// A page look gives its number; its bytes are looked at by themselves. Banks and record come apart, since the list names a length for each.
fn make(
    s: [u8; MACHINE_SIZE],
    l: Listed,
    low: &mut [u8],
    high: &mut [u8],
    entries: &mut [u8],
    rom: &[u8],
) -> Made {
    match l.call {
        Call::Fresh { bitcycles } => match fresh(low, high, l.record, bitcycles) {
            Ok(b) => quiet(None, bytes_of(b)),
            Err(x) => quiet(Some(x.refusal), bytes_of(x.bench)),
        },
        Call::Cycle { event, due, timer } => {
            let b = bench_of(&s);
            match cycle(b, low, high, entries, rom, event, due, timer) {
                Ok(r) => cycle_made(r),
                Err(refusal) => quiet(Some(refusal), bytes_of(b)),
            }
        }
        Call::Row { row, .. } => {
            let mut rig = Rig {
                bench: bench_of(&s),
                low,
                high,
                entries,
                rom,
            };
            let r = run_row(&mut rig, row);
            row_made(row, r, bytes_of(rig.bench))
        }
        Call::Page(page) => quiet(page_part(low, high, page).err(), s),
    }
}

// Each is lent with the length that the list names.
pub fn lend(
    s: [u8; MACHINE_SIZE],
    l: Listed,
    low: &mut [u8; BANK],
    high: &mut [u8; BANK],
    entries: &mut [u8; RECORD],
    rom: &[u8],
) -> Made {
    make(
        s,
        l,
        &mut low[..l.low.min(BANK)],
        &mut high[..l.high.min(BANK)],
        &mut entries[..l.record.min(RECORD)],
        &rom[..l.rom.min(rom.len())],
    )
}
