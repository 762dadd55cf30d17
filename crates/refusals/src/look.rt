// Fresh and page look, tried.
use crate::say::{say, say_last, say_named, say_number};
use bench::fresh::fresh;
use bench::page::{page_look, page_number};
use common::refusal::{Refusal, number_of};
use fields::part::part;
use fields::put;
use fields::word::{four, two};
use ring::Bench;
use std::io;

// The lengths of both banks, record length and bit cycles are given. Every byte lent is $A5, but for the first of $7F. The line says the
// number, and bit cycles, record length, next slot, kept and sum of what fresh gave.
pub fn fresh_tried(rt: HostRuntime, given: &[u8]) -> io::Result<()> {
    let low = [0xA5u8; 65537];
    let mut high = [0xA5u8; 65537];
    high[0] = 0x5A;
    let made = fresh(
        part(&low, 0, four(given, 0) as usize),
        part(&high, 0, four(given, 4) as usize),
        four(given, 8) as usize,
        two(given, 12),
    );
    match made {
        Ok(b) => say_fresh(rt, None, b),
        Err(x) => say_fresh(rt, Some(x.refusal), x.bench),
    }
}

fn say_fresh(rt: HostRuntime, refusal: Option<Refusal>, b: Bench) -> io::Result<()> {
    say_number(rt, number_of(refusal))?;
    say_named(rt, b", bit cycles ", b.machine.board.bitcycles as u64)?;
    say_named(rt, b", record length ", b.length as u64)?;
    say_named(rt, b", slot ", b.slot as u64)?;
    say_named(rt, b", kept ", b.kept as u64)?;
    say_named(rt, b", sum ", b.sum as u64)?;
    say(rt, b"\n")
}

// The length of the part handed back.
pub fn say_part(rt: HostRuntime, bytes: &[u8]) -> io::Result<()> {
    say_named(rt, b", part of ", bytes.len() as u64)
}

// Its first byte, where it has one.
fn say_first(rt: HostRuntime, bytes: &[u8]) -> io::Result<()> {
    match bytes.first() {
        Some(first) => say_named(rt, b", first byte ", *first as u64),
        None => Ok(()),
    }
}

// Bytes that tell the pages: 1 and 2 on the low bank's first and last, 3 and 4 on the high bank's.
fn mark(bank: &mut [u8], first: u8, last: u8) {
    put(bank, 0, &[first]);
    put(bank, 65280, &[last]);
}

fn look<'a>(rt: HostRuntime, low: &'a [u8], high: &'a [u8], page: u16) -> io::Result<()> {
    let bytes = page_look(low, high, page);
    say_part(rt, bytes)?;
    say_first(rt, bytes)?;
    say_last(rt, page_number(low, high, page))
}

// The lengths of both banks and the page are given.
pub fn page_tried(rt: HostRuntime, given: &[u8]) -> io::Result<()> {
    let mut low = [0u8; 65537];
    let mut high = [0u8; 65537];
    mark(&mut low, 1, 2);
    mark(&mut high, 3, 4);
    look(
        rt,
        part(&low, 0, four(given, 0) as usize),
        part(&high, 0, four(given, 4) as usize),
        two(given, 8),
    )
}
