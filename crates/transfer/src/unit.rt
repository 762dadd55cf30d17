// One HDMA unit of 1, 2 or 4 bytes: its address is taken before its bytes and stored after.
ghost use Rattle.std.specs.Prelude.{◌≡◌};
ghost use Rattle.bus.specs.Lent.{world_on, holding, on_core};
ghost use Rattle.transfer.specs.Unit.{unit_byte, unit_bytes, source_of, source_stored, unit_sent};

use crate::byte::{move_byte, trip_of};
use crate::pattern::{b_address, offset, unit_len};
use bus::bus::Bus;
use common::snes_address::SnesAddress;
use registers::channel::DmaChannel;

// Byte i of a unit, at a given A address.
#[tactic(auto, unfolding(crate::specs::Unit::unit_byte))]
fn unit_byte(bus: &mut Bus<'_, '_>, c: DmaChannel, at: SnesAddress, i: u8)
    ensures { bus.new ≡ holding bus.old (unit_byte bus.old.rom.now c at.bank at.addr i (world_on bus.old)) }
{
    let b = b_address(c.bbad, offset(c.dmap, i as u32));
    move_byte(bus, trip_of(c.dmap, at, b));
}

// The first n bytes of a unit. DMAP and BBAD are those from before the unit.
#[tactic(auto, unfolding(crate::specs::Unit::unit_bytes))]
fn send_bytes(bus: &mut Bus<'_, '_>, c: DmaChannel, from: SnesAddress, n: u8)
    ensures { bus.new ≡ holding bus.old (unit_bytes bus.old.rom.now c from.bank from.addr n (world_on bus.old)) }
{
    for i in 0..n {
        let addr = from.addr.wrapping_add(i as u16);
        unit_byte(bus, c, SnesAddress { addr, ..from }, i);
    }
}

// Direct channels stream from the table, indirect ones from DASB:DAS.
#[tactic(auto, unfolding(crate::specs::Unit::source_of))]
fn source_of(c: DmaChannel, indirect: bool) -> SnesAddress
    ensures { result ≡ source_of c indirect }
{
    if indirect {
        SnesAddress {
            bank: c.dasb,
            addr: c.das,
        }
    } else {
        SnesAddress {
            bank: c.a1b,
            addr: c.a2a,
        }
    }
}

// The address after the unit goes back where it came from.
#[tactic(auto, unfolding(crate::specs::Unit::source_stored))]
fn store_source(bus: &mut Bus<'_, '_>, ch: u8, indirect: bool, addr: u16)
    ensures { bus.new ≡ on_core bus.old (source_stored bus.old.core ch indirect addr) }
{
    let c = bus.channel(ch);
    let c = if indirect {
        DmaChannel { das: addr, ..c }
    } else {
        DmaChannel { a2a: addr, ..c }
    };
    bus.set_channel(ch, c);
}

// Answers how many bytes went.
#[tactic(auto, unfolding(crate::specs::Unit::unit_sent))]
pub fn transfer_unit(bus: &mut Bus<'_, '_>, ch: u8, indirect: bool) -> u8
    ensures bytes { result ≡ (unit_sent bus.old.rom.now (world_on bus.old) ch indirect).bytes }
    ensures after { bus.new ≡ holding bus.old (unit_sent bus.old.rom.now (world_on bus.old) ch indirect).world }
{
    let c = bus.channel(ch);
    let from = source_of(c, indirect);
    let n = unit_len(c.dmap);
    send_bytes(bus, c, from, n);
    store_source(bus, ch, indirect, from.addr.wrapping_add(n as u16));
    n
}
