// The line of a listed call: its numbers, then whatever differs from what was lent.
use crate::changes::{Digits, changes};
use crate::form::{Call, Listed, listed_of, machine_of};
use crate::lay::{BANK, RECORD, lay_bank, lay_record};
use crate::made::{Made, lend};
use append::Sheet;
use asbytes::MACHINE_SIZE;
use asbytes::bytes::head_bytes;
use bench::page::page_part;
use bus::access::{Access, Log};
use common::refusal::Refusal;
use fields::part::part;
use layout::{ENTRY_SIZE, IMAGE_SIZE};

// The longest line that there is room for.
pub const LINE: usize = 16384;

// Why the call was refused, if it was; whether all stayed as it was, and the call said nothing else, refused or not; the line.
#[derive(Clone, Copy)]
pub struct Told<'a> {
    pub refusal: Option<Refusal>,
    pub still: bool,
    pub line: &'a [u8],
}

// Call, number, held, edge, byte and cost, each in two digits.
fn opening(line: &mut Sheet<'_>, kind: u8, m: Made) {
    line.hex_byte(kind);
    let number = m.refusal.map_or(0, Refusal::number);
    let numbers = [number, m.held as u8, m.edge as u8, m.byte, m.cost];
    line.hexes(b" ", &numbers);
}

// A slot that was written: its number, and where it differs from the image before.
fn slot(line: &mut Sheet<'_>, n: u8, image: &[u8; IMAGE_SIZE], before: &[u8], after: &[u8]) {
    if before != after {
        line.put(b" e");
        line.hex_byte(n);
        changes(line, b'o', Digits::Two, image, after);
    }
}

fn slots(line: &mut Sheet<'_>, s: [u8; MACHINE_SIZE], before: &[u8; RECORD], after: &[u8; RECORD]) {
    let image = head_bytes(&s);
    for n in 0..4u8 {
        let from = n as usize * ENTRY_SIZE;
        slot(
            line,
            n,
            &image,
            part(before, from, ENTRY_SIZE),
            part(after, from, ENTRY_SIZE),
        );
    }
}

fn access(line: &mut Sheet<'_>, x: Access) {
    line.push(b' ');
    line.push(if x.write { b'w' } else { b'r' });
    line.hex_byte(x.bank);
    line.hex_word(x.addr);
    line.push(b'=');
    line.hex_byte(x.byte);
}

fn accesses(line: &mut Sheet<'_>, log: Log) {
    for x in log.held() {
        access(line, *x);
    }
}

// The page that a page look of both banks hands back.
fn look(line: &mut Sheet<'_>, l: Listed, low: &[u8; BANK], high: &[u8; BANK]) {
    let Call::Page(page) = l.call else {
        return;
    };
    if let Ok(bytes) = page_part(&low[..l.low.min(BANK)], &high[..l.high.min(BANK)], page) {
        line.put(b" p");
        line.hexes(b"", bytes);
    }
}

// Makes the call, and writes its line. All stayed where the line is bare of changes, and there is no flag, byte or cost.
pub fn answer<'a>(head: &[u8], newest: &[u8], rom: &[u8], line: &'a mut [u8; LINE]) -> Told<'a> {
    let l = listed_of(head);
    let s = machine_of(head);
    let mut low = [0u8; BANK];
    let mut high = [0u8; BANK];
    let mut entries = [0u8; RECORD];
    lay_bank(&mut low, 0, head);
    lay_bank(&mut high, 1, head);
    lay_record(&mut entries, l, newest);
    let low0 = low;
    let high0 = high;
    let entries0 = entries;
    let m = lend(s, l, &mut low, &mut high, &mut entries, rom);
    let mut out = Sheet { text: line, at: 0 };
    opening(&mut out, l.kind, m);
    let bare = out.at;
    changes(&mut out, b'm', Digits::Three, &s, &m.after);
    changes(&mut out, b'l', Digits::Six, &low0, &low);
    changes(&mut out, b'h', Digits::Six, &high0, &high);
    slots(&mut out, s, &entries0, &entries);
    accesses(&mut out, m.log);
    look(&mut out, l, &low, &high);
    let stayed = out.at == bare;
    out.push(b'\n');
    let end = out.at;
    let silent = !m.held & !m.edge & (m.byte == 0) & (m.cost == 0);
    Told {
        refusal: m.refusal,
        still: silent & stayed,
        line: part(line, 0, end),
    }
}
