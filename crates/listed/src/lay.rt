// What a listed call is lent, laid out: banks of a fill with patches, a record of bytes $EE, the start of one long ROM.
use crate::form::{FILL, HEAD, Listed, PATCHES};
use fields::part::part;
use fields::put;
use fields::word::{byte, two};
use layout::ENTRY_SIZE;
use start::fill::fill_bank;

// A bank with one byte more, so that one too long can be lent.
pub const BANK: usize = 65537;
// The longest ROM, and one byte more.
pub const ROM: usize = 4194305;
// Four slots, the most that a listed call lends.
pub const RECORD: usize = 1024;

// Every listed ROM is a start of these bytes.
pub fn lay_rom(rom: &mut [u8; ROM]) {
    for (i, byte) in rom.iter_mut().enumerate() {
        *byte = (i % 251) as u8;
    }
}

// One patch: place (3 bytes, the third 0 for $7E and 1 for $7F) and byte, if it is in this bank.
fn lay_patch(bank: &mut [u8], which: u32, patch: &[u8]) {
    if byte(patch, 2) as u32 == which {
        put(bank, two(patch, 0) as usize, &[byte(patch, 3)]);
    }
}

// The fill, of 1 to 16 bytes, over a bank, and the patches.
pub fn lay_bank(bank: &mut [u8; BANK], which: u32, head: &[u8]) {
    fill_bank(bank, part(head, FILL + 1, byte(head, FILL) as usize));
    for patch in part(head, PATCHES, HEAD - PATCHES).chunks(4) {
        lay_patch(bank, which, patch);
    }
}

// Bytes that no entry has; a back step's entry stands in the slot that the list names.
pub fn lay_record(record: &mut [u8], l: Listed, newest: &[u8]) {
    record.fill(0xEE);
    if let Some(slot) = l.call.newest() {
        put(record, slot as usize * ENTRY_SIZE, newest);
    }
}
