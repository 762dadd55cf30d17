// The six operations: cycle, read, write, pad, plug and port answer. A refused one leaves all that was lent as it was. Banks, record and
// ROM come apart, as the C interface lends them.
ghost use Rattle.std.specs.Prelude.{◌≡◌};
ghost use Rattle.bench.specs.Calls.{desk, event_of, cycle_out, cycle_call, read_out, read_call, write_out, write_call, plain_out, pad_call, plug_call, answer_call};
ghost use Rattle.ring.specs.Slots.{noting, noted};
ghost use Rattle.wram.specs.Olds.{no_olds};

use crate::host::{set_answer, set_pad, set_plug, with_io};
use bus::access::{Log, opened_core};
use bus::bus::Bus;
use common::refusal::Refusal;
use common::snes_address::SnesAddress;
use machine::event::Event;
use ring::Bench;
use ring::refusal::{address_allowed, cycle_allowed, lent, port_allowed};
use ring::slots::note;
use state::Machine;
use wram::Ram;

// What an accepted cycle gives.
#[derive(Clone, Copy)]
pub struct CycleAnswer {
    pub bench: Bench,
    pub held: bool,
    pub edge: bool,
    pub log: Log,
}

#[derive(Clone, Copy)]
pub struct ReadAnswer {
    pub bench: Bench,
    pub byte: u8,
    pub cost: u8,
}

#[derive(Clone, Copy)]
pub struct WriteAnswer {
    pub bench: Bench,
    pub cost: u8,
}

// Document 01's numbers for the events. No `TryFrom` that refuses: `cycle_allowed` has refused the others in the table's order.
fn event_of(event: u8) -> Event
    ensures { result ≡ event_of event }
{
    match event {
        1 => Event::HBlankStart,
        2 => Event::NormalLine,
        3 => Event::VBlankStart,
        4 => Event::FrameStart,
        _ => Event::Nothing,
    }
}

// One master cycle.
pub fn cycle(
    b: Bench,
    low: &mut [u8],
    high: &mut [u8],
    entries: &mut [u8],
    rom: &[u8],
    event: u8,
    line: bool,
    timer: bool,
) -> Result<CycleAnswer, Refusal>
    ensures { cycle_out b result low.new high.new entries.new ≡ cycle_call rom.now (desk b low.old high.old entries.old) event line timer }
{
    let lent = lent(b, low.len(), high.len(), entries.len(), rom.len());
    cycle_allowed(lent, b, event)?;
    let mut next = b.machine;
    let mut ram = Ram { low, high };
    let turn = machine::cycle::cycle(&mut next, &mut ram, rom, event_of(event), line, timer);
    let sum = ram.sum_after(b.sum, turn.olds);
    let bench = note(b, entries, next, turn.olds, sum);
    Ok(CycleAnswer {
        bench,
        held: turn.held,
        edge: turn.edge,
        log: turn.log,
    })
}

// A byte from the bus, and its cost. `bank` and `addr` come apart here and in `write`, as the C interface has them.
pub fn read(
    b: Bench,
    low: &mut [u8],
    high: &mut [u8],
    entries: &mut [u8],
    rom: &[u8],
    bank: u8,
    addr: u16,
) -> Result<ReadAnswer, Refusal>
    ensures { read_out b result low.new high.new entries.new ≡ read_call rom.now (desk b low.old high.old entries.old) bank addr }
{
    lent(b, low.len(), high.len(), entries.len(), rom.len())?;
    let at = SnesAddress { bank, addr };
    let io = b.machine.io;
    let mut ram = Ram { low, high };
    let mut bus = Bus {
        core: opened_core(io),
        ram: &mut ram,
        rom,
    };
    let byte = bus.read(at);
    let core = bus.core;
    let sum = bus.ram.sum_after(b.sum, core.olds);
    let bench = note(b, entries, with_io(b.machine, core.io), core.olds, sum);
    Ok(ReadAnswer {
        bench,
        byte,
        cost: bus::speed::cost(io.enables.memsel, at),
    })
}

// A byte to the bus, and its cost.
pub fn write(
    b: Bench,
    low: &mut [u8],
    high: &mut [u8],
    entries: &mut [u8],
    rom: &[u8],
    bank: u8,
    addr: u16,
    byte: u8,
) -> Result<WriteAnswer, Refusal>
    ensures { write_out b result low.new high.new entries.new ≡ write_call rom.now (desk b low.old high.old entries.old) bank addr byte }
{
    lent(b, low.len(), high.len(), entries.len(), rom.len())?;
    let at = SnesAddress { bank, addr };
    let io = b.machine.io;
    let mut ram = Ram { low, high };
    let mut bus = Bus {
        core: opened_core(io),
        ram: &mut ram,
        rom,
    };
    bus.write(at, byte);
    let core = bus.core;
    let sum = bus.ram.sum_after(b.sum, core.olds);
    let bench = note(b, entries, with_io(b.machine, core.io), core.olds, sum);
    Ok(WriteAnswer {
        bench,
        cost: bus::speed::cost(io.enables.memsel, at),
    })
}

// What pad, plug and port answer share: the machine is changed by value, and no work RAM is written.
fn host(b: Bench, entries: &mut [u8], next: Machine) -> Bench
    ensures { noting result entries.new ≡ noted b entries.old next no_olds b.sum }
{
    note(b, entries, next, wram::no_olds(), b.sum)
}

// The pad word of a controller port.
pub fn pad(
    b: Bench,
    low: &mut [u8],
    high: &mut [u8],
    entries: &mut [u8],
    rom: &[u8],
    port: u8,
    word: u16,
) -> Result<Bench, Refusal>
    ensures { plain_out b result low.new high.new entries.new ≡ pad_call rom.now (desk b low.old high.old entries.old) port word }
{
    let lent = lent(b, low.len(), high.len(), entries.len(), rom.len());
    port_allowed(lent, port)?;
    Ok(host(b, entries, set_pad(b.machine, port, word)))
}

// A pad plugged into a controller port, or pulled.
pub fn plug(
    b: Bench,
    low: &mut [u8],
    high: &mut [u8],
    entries: &mut [u8],
    rom: &[u8],
    port: u8,
    on: bool,
) -> Result<Bench, Refusal>
    ensures { plain_out b result low.new high.new entries.new ≡ plug_call rom.now (desk b low.old high.old entries.old) port on }
{
    let lent = lent(b, low.len(), high.len(), entries.len(), rom.len());
    port_allowed(lent, port)?;
    Ok(host(b, entries, set_plug(b.machine, port, on)))
}

// What the PPU or the APU answers at an address from now on.
pub fn port_answer(
    b: Bench,
    low: &mut [u8],
    high: &mut [u8],
    entries: &mut [u8],
    rom: &[u8],
    addr: u16,
    byte: u8,
) -> Result<Bench, Refusal>
    ensures { plain_out b result low.new high.new entries.new ≡ answer_call rom.now (desk b low.old high.old entries.old) addr byte }
{
    let lent = lent(b, low.len(), high.len(), entries.len(), rom.len());
    address_allowed(lent, addr)?;
    Ok(host(b, entries, set_answer(b.machine, addr, byte)))
}
