// One byte of a general transfer, moved between memory and a port of the B bus.
ghost use Rattle.std.specs.Prelude.{◌≡◌, true};
ghost use Rattle.asbytes.specs.Answer.{answered};
ghost use Rattle.asbytes.specs.Crossed.{crossed};
ghost use Rattle.asbytes.specs.Machine.{head_of};
ghost use Rattle.entry.specs.Slot.{write_slot};
ghost use Rattle.fields.specs.Patch.{patched};
ghost use Rattle.image.specs.Encode.{enc_olds};
ghost use Rattle.inplace.specs.OneByte.{port_byte, byte_from, place_for, wmadd_bytes, wmadd_next, written_next, after_move, carried};
ghost use Rattle.inplace.specs.Rest.{at};
ghost use Rattle.layout.specs.Layout.{entry_size, old_count};
ghost use Rattle.transfer.specs.Byte.{moved_log};

use crate::rest::count;
use asbytes::answer::access_bytes;
use asbytes::bytes::{head, kept_at, length_at, put_head, put_sum, slot_at, sum_at};
use asbytes::{ACCESS_SIZE, ACCESSES, ACCESSES_SIZE};
use bus::access::Access;
use bus::route::{Route, place_of, route_of};
use common::snes_address::SnesAddress;
use decode::register_file::wmadd_in;
use fields::put;
use fields::word::{byte, bytes_at, two};
use image::olds::olds_bytes;
use image::register_file::bank_byte;
use layout::{
    A1T, APU, CLOCK, DAS, ENTRY_SIZE, IMAGE_SIZE, NMI, OLD_COUNT, OPENBUS, PPU, UNIT, WAIT,
    WMADD_BANK, WRITTEN, capacity,
};
use registers::wm_address::{WmAddress, inc};
use transfer::bits::flag;
use transfer::byte::{Trip, next_a1t};
use way::{base_at, bside_at, clock_at, nmi_at, trip_at, unit_at};
use wram::{Olds, Place, Ram, no_olds};

// What a port of the B bus answers; where none does, the open bus.
fn port_at(e: &[u8], addr: u16) -> u8
    ensures { result ≡ port_byte e.now addr }
{
    if addr < 0x2134 {
        return byte(e, OPENBUS);
    }
    if addr < 0x2140 {
        return byte(e, PPU + (addr - 0x2134) as usize);
    }
    if addr < 0x2180 {
        return byte(e, APU + (addr % 4) as usize);
    }
    byte(e, OPENBUS)
}

// The byte of work RAM behind an address, if it has one.
#[tactic(auto, unfolding(crate::specs::OneByte::place_for))]
fn place_at(e: &[u8], at: SnesAddress) -> Option<Place>
    ensures { result ≡ place_for e.now at.bank at.addr }
{
    place_of(wmadd_in(e), route_of(at), at.addr)
}

#[tactic(auto, unfolding(crate::specs::OneByte::byte_from))]
fn byte_from(e: &[u8], ram: &Ram<'_>, rom: &[u8], at: SnesAddress) -> u8
    ensures { result ≡ byte_from e.now rom.now ram.now.low.now ram.now.high.now at.bank at.addr }
{
    match route_of(at) {
        Route::Bank7E | Route::Bank7F | Route::Data => ram.peek(place_at(e, at)),
        Route::Registers => port_at(e, at.addr),
        Route::Cartridge => cartridge::read(rom, at, byte(e, OPENBUS)),
    }
}

// The machine's image before the byte, and the byte of work RAM that it replaces, over the first bytes of `part`.
fn put_noted(part: &mut [u8], s: &[u8], olds: Olds)
    ensures { part.new ≡ patched part.old 0 (patched (head_of s.now) (at old_count) (enc_olds olds)) }
{
    if IMAGE_SIZE <= part.len() {
        put_head(part, s);
        put(part, OLD_COUNT, &olds_bytes(olds));
    }
}

fn note_moved(entries: &mut [u8], slot: usize, s: &[u8], olds: Olds)
    ensures { entries.new ≡ write_slot entry_size slot (patched (head_of s.now) (at old_count) (enc_olds olds)) entries.old }
{
    if slot < capacity(entries.len()) {
        put_noted(&mut entries[slot * ENTRY_SIZE..], s, olds);
    }
}

// $2180 takes WMADD one byte on.
#[tactic(auto, unfolding(crate::specs::OneByte::wmadd_next))]
fn wmadd_next(e: &[u8]) -> WmAddress
    ensures { result ≡ wmadd_next e.now }
{
    let wmadd = wmadd_in(e);
    if bside_at(e) == 0x2180 {
        return inc(wmadd);
    }
    wmadd
}

fn wmadd_bytes(w: WmAddress) -> [u8; 3]
    ensures { result ≡ wmadd_bytes w }
{
    let [low, high] = w.addr.to_le_bytes();
    [bank_byte(w.bank), low, high]
}

// The bytes last written to the APU.
#[tactic(auto, unfolding(crate::specs::OneByte::written_next))]
fn written_next(e: &[u8], moved: u8) -> [u8; 4]
    ensures { result ≡ written_next e.now moved }
{
    let mut w = bytes_at(e, WRITTEN);
    let base = base_at(e);
    let port = bside_at(e);
    if !flag(byte(e, base), 0x80) & (0x2140 <= port) & (port < 0x2180) {
        w[(port % 4) as usize] = moved;
    }
    w
}

// The image once the byte has moved: WMADD, open bus, NMI line, progress and wait, the channel's A1T and DAS, APU ports, clock, each where
// it stands.
fn move_on(s: &mut [u8], moved: u8)
    ensures { s.new ≡ patched s.old 0 (after_move (head_of s.old) moved) }
{
    if IMAGE_SIZE <= s.len() {
        let e = &s[..IMAGE_SIZE];
        let base = base_at(e);
        let a1t = next_a1t(byte(e, base), two(e, base + A1T));
        let das = two(e, base + DAS).wrapping_sub(1);
        let nmi = nmi_at(e);
        let unit = unit_at(e).wrapping_add(1);
        let clock = clock_at(e).wrapping_add(1);
        let wmadd = wmadd_next(e);
        let written = written_next(e, moved);
        put(s, WMADD_BANK, &wmadd_bytes(wmadd));
        put(s, OPENBUS, &[moved]);
        put(s, NMI, &[nmi as u8]);
        put(s, UNIT, &unit.to_le_bytes());
        put(s, WAIT, &7u32.to_le_bytes());
        put(s, base + A1T, &a1t.to_le_bytes());
        put(s, base + DAS, &das.to_le_bytes());
        put(s, WRITTEN, &written);
        put(s, CLOCK, &clock.to_le_bytes());
    }
}

// Two accesses, the read and the write of the byte.
fn put_moved(out: &mut [u8], edge: bool, trip: Trip, byte: u8)
    ensures { out.new ≡ answered true edge (moved_log trip byte) out.old }
{
    put(out, 0, &[1, edge as u8, 2]);
    let from = access_bytes(Access {
        write: false,
        bank: trip.source.bank,
        addr: trip.source.addr,
        byte,
    });
    let to = access_bytes(Access {
        write: true,
        bank: trip.target.bank,
        addr: trip.target.addr,
        byte,
    });
    let mut b = [0u8; ACCESSES_SIZE];
    put(&mut b, 0, &from);
    put(&mut b, ACCESS_SIZE, &to);
    put(out, ACCESSES, &b);
}

// All that the byte depends on is read first; the entry is noted before the image moves on. What is lent comes apart, as the exported call
// has it.
pub fn carry(
    machine: &mut [u8],
    low: &mut [u8],
    high: &mut [u8],
    entries: &mut [u8],
    rom: &[u8],
    out: &mut [u8],
)
    ensures { crossed 0 machine.new low.new high.new entries.new out.new ≡ carried rom.now machine.old low.old high.old entries.old out.old }
{
    let slot = slot_at(machine);
    let kept = kept_at(machine);
    let length = length_at(machine);
    let sum = sum_at(machine);
    let e = head(machine);
    let trip = trip_at(e);
    let nmi = nmi_at(e);
    let was = byte(e, NMI);
    let mut ram = Ram { low, high };
    let moved = byte_from(e, &ram, rom, trip.source);
    let place = place_at(e, trip.target);
    let olds = ram.keep_old(no_olds(), place);
    let next = ram.sum_with(sum, place, moved);
    note_moved(entries, slot, machine, olds);
    move_on(machine, moved);
    count(machine, slot, kept, length);
    put_sum(machine, next);
    put_moved(out, nmi & !(was == 1), trip, moved);
    ram.poke(place, moved);
}
