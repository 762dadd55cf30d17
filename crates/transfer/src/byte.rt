// One byte moved, and the byte of a general transfer.
ghost use Rattle.std.specs.Prelude.{◌≡◌};
ghost use Rattle.bus.specs.Lent.{world_on, holding, on_core};
ghost use Rattle.transfer.specs.Byte.{trip_of, moved, next_a1t, step_a1t, transfer_byte};

use crate::bits::flag;
use crate::pattern::{b_address, offset};
use bus::bus::Bus;
use common::snes_address::SnesAddress;
use registers::channel::DmaChannel;

// Where a byte comes from and goes to.
#[derive(Clone, Copy)]
pub struct Trip {
    pub source: SnesAddress,
    pub target: SnesAddress,
}

// From the A bus to the B bus, or back where DMAP bit 7 is set.
#[tactic(auto, unfolding(crate::specs::Byte::trip_of))]
pub fn trip_of(dmap: u8, a: SnesAddress, baddr: u16) -> Trip
    ensures { result ≡ trip_of dmap a.bank a.addr baddr }
{
    let b = SnesAddress {
        bank: 0,
        addr: baddr,
    };
    if flag(dmap, 0x80) {
        Trip {
            source: b,
            target: a,
        }
    } else {
        Trip {
            source: a,
            target: b,
        }
    }
}

// Read, then written.
#[tactic(auto, unfolding(crate::specs::Byte::moved))]
pub fn move_byte(bus: &mut Bus<'_, '_>, trip: Trip)
    ensures { bus.new ≡ holding bus.old (moved bus.old.rom.now (world_on bus.old) trip) }
{
    let byte = bus.read(trip.source);
    bus.write(trip.target, byte);
}

// A1T steps inside its bank: bit 3 of DMAP holds it, else bit 4 takes it down.
pub fn next_a1t(dmap: u8, a1t: u16) -> u16
    ensures { result ≡ next_a1t dmap a1t }
{
    if flag(dmap, 0x08) {
        return a1t;
    }
    if flag(dmap, 0x10) {
        return a1t.wrapping_sub(1);
    }
    a1t.wrapping_add(1)
}

#[tactic(auto, unfolding(crate::specs::Byte::step_a1t))]
fn step_a1t(bus: &mut Bus<'_, '_>, ch: u8, dmap: u8)
    ensures { bus.new ≡ on_core bus.old (step_a1t bus.old.core ch dmap) }
{
    let c = bus.channel(ch);
    let a1t = next_a1t(dmap, c.a1t);
    bus.set_channel(ch, DmaChannel { a1t, ..c });
}

// A byte of a general transfer: the bus first, then A1T as the bus left it.
#[tactic(auto, unfolding(crate::specs::Byte::transfer_byte))]
pub fn transfer_byte(bus: &mut Bus<'_, '_>, ch: u8, unit: u32)
    ensures { bus.new ≡ holding bus.old (transfer_byte bus.old.rom.now (world_on bus.old) ch unit) }
{
    let c = bus.channel(ch);
    let b = b_address(c.bbad, offset(c.dmap, unit));
    let a = SnesAddress {
        bank: c.a1b,
        addr: c.a1t,
    };
    move_byte(bus, trip_of(c.dmap, a, b));
    step_a1t(bus, ch, c.dmap);
}
