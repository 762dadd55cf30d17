// Document 01's table of refusals. Tests go in number order.
ghost use Rattle.std.specs.Prelude.{◌≡◌};
ghost use Rattle.common.specs.Refusal.{result_number};
ghost use Rattle.ring.specs.Refusal.{banks_off, record_off, rom_off, bench_off, lent_number, also_of, cycle_number, port_number, address_number, back_number, fresh_number, look_number};

use crate::Bench;
use common::refusal::Refusal;
use layout::{ENTRY_SIZE, capacity};
use ranges::machine::machine_ok;

// 1: a work RAM slice is not 65,536 bytes.
pub fn banks_off(low: usize, high: usize) -> bool
    ensures { result ≡ banks_off low high }
{
    (low != 65536) | (high != 65536)
}

// 2: the record's length is 0, no multiple of an entry's size, or not fresh's.
pub fn record_off(length: usize, fresh: usize) -> bool
    ensures { result ≡ record_off length fresh }
{
    (length == 0) | (length % ENTRY_SIZE != 0) | (length != fresh)
}

// 3: the ROM is too long.
pub fn rom_off(rom: usize) -> bool
    ensures { result ≡ rom_off rom }
{
    4194304 < rom
}

// 4: the machine breaks the ranges, the next slot is not under the capacity, or kept is over it.
fn bench_off(b: Bench) -> bool
    ensures { result ≡ bench_off b }
{
    let m = b.machine;
    let ok = machine_ok(m);
    let cap = capacity(b.length);
    !ok | (cap <= b.slot) | (cap < b.kept)
}

// What every operation tests. Back takes no ROM and gives 0 for its length, so that 3 never comes of it.
#[tactic(auto, unfolding(crate::specs::Refusal::lent_number))]
pub fn lent(b: Bench, low: usize, high: usize, length: usize, rom: usize) -> Result<(), Refusal>
    ensures { result_number result ≡ lent_number b low high length rom }
{
    if banks_off(low, high) {
        return Err(Refusal::Banks);
    }
    if record_off(length, b.length) {
        return Err(Refusal::Record);
    }
    if rom_off(rom) {
        return Err(Refusal::Rom);
    }
    if bench_off(b) {
        return Err(Refusal::Machine);
    }
    Ok(())
}

// The first that refuses.
fn also(first: Result<(), Refusal>, second: Result<(), Refusal>) -> Result<(), Refusal>
    ensures { result_number result ≡ also_of (result_number first) (result_number second) }
{
    first.and(second)
}

// A cycle also tests its event, and the clock's end. Here and below, what `lent` answered comes first.
#[tactic(auto, unfolding(crate::specs::Refusal::cycle_number))]
pub fn cycle_allowed(lent: Result<(), Refusal>, b: Bench, event: u8) -> Result<(), Refusal>
    ensures { result_number result ≡ cycle_number (result_number lent) b event }
{
    if 4 < event {
        return also(lent, Err(Refusal::Event));
    }
    if b.machine.board.clock == u64::MAX {
        return also(lent, Err(Refusal::ClockEnd));
    }
    lent
}

// pad and plug also test their controller port.
#[tactic(auto, unfolding(crate::specs::Refusal::port_number))]
pub fn port_allowed(lent: Result<(), Refusal>, port: u8) -> Result<(), Refusal>
    ensures { result_number result ≡ port_number (result_number lent) port }
{
    if 1 < port {
        return also(lent, Err(Refusal::Port));
    }
    lent
}

// A port answer also tests its address: one of the PPU's twelve or the APU's four.
#[tactic(auto, unfolding(crate::specs::Refusal::address_number))]
pub fn address_allowed(lent: Result<(), Refusal>, addr: u16) -> Result<(), Refusal>
    ensures { result_number result ≡ address_number (result_number lent) addr }
{
    if (addr < 0x2134) | (0x2143 < addr) {
        return also(lent, Err(Refusal::Port));
    }
    lent
}

// Back also tests that something is kept, and the newest entry.
#[tactic(auto, unfolding(crate::specs::Refusal::back_number))]
pub fn back_allowed(lent: Result<(), Refusal>, kept: usize, ok: bool) -> Result<(), Refusal>
    ensures { result_number result ≡ back_number (result_number lent) kept ok }
{
    if kept == 0 {
        return also(lent, Err(Refusal::NothingKept));
    }
    if !ok {
        return also(lent, Err(Refusal::Entry));
    }
    lent
}

// fresh tests both banks, the first two parts of 2, then 10.
#[tactic(auto, unfolding(crate::specs::Refusal::fresh_number))]
pub fn fresh_allowed(low: usize, high: usize, length: usize, bitcycles: u16) -> Result<(), Refusal>
    ensures { result_number result ≡ fresh_number low high length bitcycles }
{
    if banks_off(low, high) {
        return Err(Refusal::Banks);
    }
    if (length == 0) | (length % ENTRY_SIZE != 0) {
        return Err(Refusal::Record);
    }
    if (bitcycles == 0) | (4096 < bitcycles) {
        return Err(Refusal::BitCycles);
    }
    Ok(())
}

// A page look tests both banks, then its page.
#[tactic(auto, unfolding(crate::specs::Refusal::look_number))]
pub fn look_allowed(low: usize, high: usize, page: u16) -> Result<(), Refusal>
    ensures { result_number result ≡ look_number low high page }
{
    if banks_off(low, high) {
        return Err(Refusal::Banks);
    }
    if 511 < page {
        return Err(Refusal::Page);
    }
    Ok(())
}
