// Which way a cycle goes, by the machine's bytes: most cycles can be made on the bytes themselves (room inplace).
#![tactic(auto)]

ghost use Rattle.std.specs.Prelude.{◌≡◌};
ghost use Rattle.asbytes.specs.Machine.{head_of};
ghost use Rattle.ranges.specs.Entry.{entry_ok};
ghost use Rattle.ranges.specs.Tests.{all};
ghost use Rattle.way.specs.Seen.{wait_at, clock_at, nmi_at, base_at, unit_at, bside_at, aside_at, trip_in, seen};
ghost use Rattle.way.specs.Way.{pressed_tests, calm_tests, waiting, due_tests, trip_tests, way_number, turn_by, kind_of, plain_tests, lent_tests, way_of};

use asbytes::MACHINE_SIZE;
use asbytes::bytes::{kept_at, length_at, slot_at};
use bus::route::{leads_to_memory, route_of};
use common::snes_address::SnesAddress;
use fields::word::{byte, eight, four, two};
use layout::{
    A1B, A1T, AUTO_KIND, BBAD, BUTTONS, CHANNEL, CHANNEL_SIZE, CHANNELS, CLOCK, DAS, DMA_STATE,
    MDMAEN, NMITIMEN, OLD_COUNT, PAD1, PAD2, PENDING, PORT_SIZE, PORTS, PRESENT, RDNMI, RUNNING,
    UNIT, WAIT, capacity,
};
use ranges::entry::entry_ok;
use ring::refusal::{banks_off, record_off, rom_off};
use transfer::bits::flag;
use transfer::byte::{Trip, trip_of};
use transfer::pattern::{b_address, offset};

// How a cycle is made.
#[derive(Clone, Copy, PartialEq, Eq, Debug)]
pub enum Way {
    // by the call that reads the whole machine: anything else than the two below, a refusal too
    Full,
    // it only waits
    Rest,
    // it moves a byte of a general transfer
    Carry,
}

const BUTTONS1: usize = PORTS + BUTTONS;

const BUTTONS2: usize = PORTS + PORT_SIZE + BUTTONS;

pub fn wait_at(s: &[u8]) -> u32
    ensures { result ≡ wait_at s.now }
{
    four(s, WAIT)
}

pub fn clock_at(s: &[u8]) -> u64
    ensures { result ≡ clock_at s.now }
{
    eight(s, CLOCK)
}

// The NMI line as it will be.
pub fn nmi_at(s: &[u8]) -> bool
    ensures { result ≡ nmi_at s.now }
{
    (byte(s, NMITIMEN) & 0x80 != 0) & (byte(s, RDNMI) & 0x80 != 0)
}

fn pressed_at(s: &[u8]) -> bool
    ensures { result ≡ all (pressed_tests (seen s.now)) }
{
    (two(s, PAD1) & !0x000F == two(s, BUTTONS1)) & (two(s, PAD2) & !0x000F == two(s, BUTTONS2))
}

fn calm_at(s: &[u8]) -> bool
    ensures { result ≡ all (calm_tests (seen s.now)) }
{
    (byte(s, AUTO_KIND) == 0)
        & pressed_at(s)
        & ((byte(s, RUNNING) == 1) | (byte(s, MDMAEN) == 0))
        & (byte(s, OLD_COUNT) == 0)
        & (clock_at(s) != 18446744073709551615)
}

fn waiting_at(s: &[u8]) -> bool
    ensures { result ≡ waiting (seen s.now) }
{
    (0 < wait_at(s)) | ((byte(s, PENDING) == 0) & (byte(s, DMA_STATE) == 0))
}

// Where the registers of the channel in progress stand.
pub fn base_at(s: &[u8]) -> usize
    ensures { result ≡ base_at s.now }
{
    CHANNELS + CHANNEL_SIZE * ((byte(s, CHANNEL) % 8) as usize)
}

pub fn unit_at(s: &[u8]) -> u32
    ensures { result ≡ unit_at s.now }
{
    four(s, UNIT)
}

// The port of the B bus that the byte goes to or comes from.
pub fn bside_at(s: &[u8]) -> u16
    ensures { result ≡ bside_at s.now }
{
    let base = base_at(s);
    let off = offset(byte(s, base), unit_at(s));
    b_address(byte(s, base + BBAD), off)
}

// The address of the A bus that it comes from or goes to.
fn aside_at(s: &[u8]) -> SnesAddress
    ensures { result ≡ aside_at s.now }
{
    let base = base_at(s);
    SnesAddress {
        bank: byte(s, base + A1B),
        addr: two(s, base + A1T),
    }
}

pub fn trip_at(s: &[u8]) -> Trip
    ensures { result ≡ trip_in s.now }
{
    let base = base_at(s);
    let port = bside_at(s);
    trip_of(byte(s, base), aside_at(s), port)
}

// A general transfer moves a byte, and it is not the channel's last.
fn due_at(s: &[u8]) -> bool
    ensures { result ≡ all (due_tests (seen s.now)) }
{
    let base = base_at(s);
    let left = two(s, base + DAS).wrapping_sub(1);
    (wait_at(s) == 0)
        & (byte(s, PENDING) == 0)
        & (byte(s, DMA_STATE) == 2)
        & (byte(s, PRESENT) == 1)
        & (left != 0)
}

// Between memory and a port; WMADD's own ports are written elsewhere.
fn plain_trip(s: &[u8]) -> bool
    ensures { result ≡ all (trip_tests (seen s.now)) }
{
    let base = base_at(s);
    let port = bside_at(s);
    leads_to_memory(route_of(aside_at(s)))
        & (flag(byte(s, base), 0x80) | !((0x2181 <= port) & (port < 0x2184)))
}

#[tactic(auto, unfolding(crate::specs::Way::turn_by))]
fn turn_of(s: &[u8]) -> Way
    ensures { way_number result ≡ turn_by (seen s.now) }
{
    if waiting_at(s) {
        return Way::Rest;
    }
    if due_at(s) & plain_trip(s) {
        return Way::Carry;
    }
    Way::Full
}

fn image_ok(s: &[u8]) -> bool
    ensures { result ≡ entry_ok (head_of s.now) }
{
    match s.first_chunk() {
        Some(e) => entry_ok(e),
        None => false,
    }
}

// Bytes are read one by one: the call before wrote some of them, and a wide read would wait for that. The ranges are tested last, since
// that takes longest.
#[tactic(auto, unfolding(crate::specs::Way::kind_of))]
fn kind_of(s: &[u8]) -> Way
    ensures { way_number result ≡ kind_of s.now }
{
    if !calm_at(s) {
        return Way::Full;
    }
    match turn_of(s) {
        Way::Full => Way::Full,
        turn => { if image_ok(s) { turn } else { Way::Full } }
    }
}

fn plain(event: u8, line: bool, timer: bool) -> bool
    ensures { result ≡ all (plain_tests event line timer) }
{
    (event == 0) & !line & !timer
}

fn lent_ok(
    low: usize,
    high: usize,
    room: usize,
    rom: usize,
    fresh: usize,
    slot: usize,
    kept: usize,
) -> bool
    ensures { result ≡ all (lent_tests low high room rom fresh slot kept) }
{
    let cap = capacity(fresh);
    !banks_off(low, high)
        & !record_off(room, fresh)
        & !rom_off(rom)
        & !(cap <= slot)
        & !(cap < kept)
}

#[tactic(auto, unfolding(crate::specs::Way::way_of))]
pub fn way_of(
    s: &[u8],
    low: usize,
    high: usize,
    room: usize,
    rom: usize,
    event: u8,
    line: bool,
    timer: bool,
) -> Way
    ensures { way_number result ≡ way_of s.now low high room rom event line timer }
{
    if s.len() != MACHINE_SIZE {
        return Way::Full;
    }
    let fresh = length_at(s);
    let slot = slot_at(s);
    let kept = kept_at(s);
    if plain(event, line, timer) & lent_ok(low, high, room, rom, fresh, slot, kept) {
        return kind_of(s);
    }
    Way::Full
}
