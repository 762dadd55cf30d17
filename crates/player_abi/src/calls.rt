// The exported functions. Each reads the machine from its bytes, makes the call, and writes the machine back where it was accepted. C has
// none of our types: each slice and each number is a parameter, and a refusal is its number.
ghost use Rattle.std.specs.Prelude.{◌≡◌, [], length};
ghost use Rattle.asbytes.specs.Crossed.{crossed, cycle_crossed};
ghost use Rattle.asbytes.specs.Machine.{bench_of};
ghost use Rattle.bench.specs.Calls.{desk, fresh_call, cycle_call, read_call, write_call, pad_call, plug_call, answer_call, back_call};
ghost use Rattle.bench.specs.Page.{page_call};
ghost use Rattle.ring.specs.Refusal.{look_number};
ghost use Rattle.benchfile.specs.File.{file_check};
ghost use Rattle.fields.specs.Patch.{patched};
ghost use Rattle.common.specs.Refusal.{result_number};
ghost use Rattle.player_abi.specs.Calls.{left_by, left, read_crossed, write_crossed, plain_crossed, fresh_crossed};

use asbytes::answer::put_answer;
use asbytes::bytes::{bench_of, store};
use bench::page::page_part;
use bus::access::no_log;
use common::refusal::Refusal;
use fields::put;
use inplace::onebyte::carry;
use inplace::rest::rest;
use ring::Bench;
use way::{Way, way_of};

// 0 where nothing refused, else the refusal's number.
fn number(r: Result<(), Refusal>) -> u8
    ensures { result ≡ result_number r }
{
    match r {
        Ok(()) => 0,
        Err(x) => x.number(),
    }
}

// What pad, plug, port answer and back share: the machine is written back where the call was accepted.
fn write_back(machine: &mut [u8], r: Result<Bench, Refusal>) -> u8
    ensures { left_by result machine.new ≡ left r machine.old }
{
    match r {
        Ok(b) => {
            store(machine, b);
            0
        }
        Err(refusal) => refusal.number(),
    }
}

// A machine at power-on beside these banks, which are only looked at.
#[unsafe(no_mangle)]
pub extern "C" fn cloverwain_fresh(
    machine: &mut [u8],
    low: &[u8],
    high: &[u8],
    length: usize,
    bitcycles: u16,
) -> u8
    ensures { crossed result machine.new [] [] [] [] ≡ fresh_crossed machine.old (fresh_call low.now high.now length bitcycles) }
{
    let (b, number) = match bench::fresh::fresh(low, high, length, bitcycles) {
        Ok(b) => (b, 0),
        Err(x) => (x.bench, x.refusal.number()),
    };
    store(machine, b);
    number
}

// One master cycle; `out` takes 58 bytes. Where the DMA unit only waits, is idle, or moves a byte between memory and a port, the bytes
// change where they stand.
#[unsafe(no_mangle)]
pub extern "C" fn cloverwain_cycle(
    machine: &mut [u8],
    low: &mut [u8],
    high: &mut [u8],
    entries: &mut [u8],
    rom: &[u8],
    event: u8,
    line: bool,
    timer: bool,
    out: &mut [u8],
) -> u8
    ensures { crossed result machine.new low.new high.new entries.new out.new ≡ cycle_crossed machine.old out.old (cycle_call rom.now (desk (bench_of machine.old) low.old high.old entries.old) event line timer) }
{
    match way_of(
        machine,
        low.len(),
        high.len(),
        entries.len(),
        rom.len(),
        event,
        line,
        timer,
    ) {
        Way::Full => {}
        Way::Rest => {
            rest(machine, entries, out);
            return 0;
        }
        Way::Carry => {
            carry(machine, low, high, entries, rom, out);
            return 0;
        }
    }
    match bench::operate::cycle(
        bench_of(machine),
        low,
        high,
        entries,
        rom,
        event,
        line,
        timer,
    ) {
        Ok(r) => {
            store(machine, r.bench);
            put_answer(out, r.held, r.edge, r.log);
            0
        }
        Err(r) => {
            put_answer(out, false, false, no_log());
            r.number()
        }
    }
}

// A byte from the bus; `out` takes byte and cost.
#[unsafe(no_mangle)]
pub extern "C" fn cloverwain_read(
    machine: &mut [u8],
    low: &mut [u8],
    high: &mut [u8],
    entries: &mut [u8],
    rom: &[u8],
    bank: u8,
    addr: u16,
    out: &mut [u8],
) -> u8
    ensures { crossed result machine.new low.new high.new entries.new out.new ≡ read_crossed machine.old out.old (read_call rom.now (desk (bench_of machine.old) low.old high.old entries.old) bank addr) }
{
    match bench::operate::read(bench_of(machine), low, high, entries, rom, bank, addr) {
        Ok(r) => {
            store(machine, r.bench);
            put(out, 0, &[r.byte, r.cost]);
            0
        }
        Err(r) => {
            put(out, 0, &[0, 0]);
            r.number()
        }
    }
}

// A byte to the bus; `out` takes the cost.
#[unsafe(no_mangle)]
pub extern "C" fn cloverwain_write(
    machine: &mut [u8],
    low: &mut [u8],
    high: &mut [u8],
    entries: &mut [u8],
    rom: &[u8],
    bank: u8,
    addr: u16,
    byte: u8,
    out: &mut [u8],
) -> u8
    ensures { crossed result machine.new low.new high.new entries.new out.new ≡ write_crossed machine.old out.old (write_call rom.now (desk (bench_of machine.old) low.old high.old entries.old) bank addr byte) }
{
    match bench::operate::write(bench_of(machine), low, high, entries, rom, bank, addr, byte) {
        Ok(r) => {
            store(machine, r.bench);
            put(out, 0, &[r.cost]);
            0
        }
        Err(r) => {
            put(out, 0, &[0]);
            r.number()
        }
    }
}

// The pad word of a controller port.
#[unsafe(no_mangle)]
pub extern "C" fn cloverwain_pad(
    machine: &mut [u8],
    low: &mut [u8],
    high: &mut [u8],
    entries: &mut [u8],
    rom: &[u8],
    port: u8,
    word: u16,
) -> u8
    ensures { crossed result machine.new low.new high.new entries.new [] ≡ plain_crossed machine.old (pad_call rom.now (desk (bench_of machine.old) low.old high.old entries.old) port word) }
{
    let b = bench_of(machine);
    let r = bench::operate::pad(b, low, high, entries, rom, port, word);
    write_back(machine, r)
}

// A pad plugged into a controller port, or pulled.
#[unsafe(no_mangle)]
pub extern "C" fn cloverwain_plug(
    machine: &mut [u8],
    low: &mut [u8],
    high: &mut [u8],
    entries: &mut [u8],
    rom: &[u8],
    port: u8,
    on: bool,
) -> u8
    ensures { crossed result machine.new low.new high.new entries.new [] ≡ plain_crossed machine.old (plug_call rom.now (desk (bench_of machine.old) low.old high.old entries.old) port on) }
{
    let b = bench_of(machine);
    let r = bench::operate::plug(b, low, high, entries, rom, port, on);
    write_back(machine, r)
}

// What the PPU or the APU answers at an address from now on.
#[unsafe(no_mangle)]
pub extern "C" fn cloverwain_port_answer(
    machine: &mut [u8],
    low: &mut [u8],
    high: &mut [u8],
    entries: &mut [u8],
    rom: &[u8],
    addr: u16,
    byte: u8,
) -> u8
    ensures { crossed result machine.new low.new high.new entries.new [] ≡ plain_crossed machine.old (answer_call rom.now (desk (bench_of machine.old) low.old high.old entries.old) addr byte) }
{
    let b = bench_of(machine);
    let r = bench::operate::port_answer(b, low, high, entries, rom, addr, byte);
    write_back(machine, r)
}

// One operation taken back.
#[unsafe(no_mangle)]
pub extern "C" fn cloverwain_back(
    machine: &mut [u8],
    low: &mut [u8],
    high: &mut [u8],
    entries: &mut [u8],
) -> u8
    ensures { crossed result machine.new low.new high.new entries.new [] ≡ plain_crossed machine.old (back_call (desk (bench_of machine.old) low.old high.old entries.old)) }
{
    let b = bench_of(machine);
    let r = bench::back::back(b, low, high, entries);
    write_back(machine, r)
}

// A page of work RAM, copied into `out`, which takes 256 bytes; a refused look leaves it as it was.
#[unsafe(no_mangle)]
pub extern "C" fn cloverwain_page<'a>(
    low: &'a [u8],
    high: &'a [u8],
    page: u16,
    out: &mut [u8],
) -> u8
    ensures { crossed result [] [] [] [] out.new ≡ crossed (look_number (length low.now) (length high.now) page) [] [] [] [] (patched out.old 0 (page_call low.now high.now page)) }
{
    match page_part(low, high, page) {
        Ok(bytes) => {
            put(out, 0, bytes);
            0
        }
        Err(r) => r.number(),
    }
}

// 0 for a bench file, else 11.
#[unsafe(no_mangle)]
pub extern "C" fn cloverwain_file_check(file: &[u8]) -> u8
    ensures { result ≡ file_check file.now }
{
    number(benchfile::check::file_check(file))
}
