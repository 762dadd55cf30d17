// The bus of one operation (bus/src/bus.rs): registers and what was done so far, both banks, the ROM.
ghost use Rattle.std.specs.Prelude.{◌≡◌};

use crate::access::{Access, Core, read_io, write_io};
use crate::route::{place_of, route_of};
use common::snes_address::SnesAddress;
use wram::Ram;

// The bus as a read needs it: banks and ROM are only looked at.
#[derive(Drop)]
pub struct ReadBus<'a> {
    pub core: &'a mut Core,
    pub low: &'a [u8],
    pub high: &'a [u8],
    pub rom: &'a [u8],
}

impl<'a> ReadBus<'a> {
    ghost use Rattle.bus.specs.Lent.{world_seen, core_seen};
    ghost use Rattle.bus.specs.World.{world, read_at};

    // Over a bus's own core and banks: who has banks that are only lent to be read makes it of those.
    pub fn of(core: &'a mut Core, ram: &'a Ram<'_>, rom: &'a [u8]) -> ReadBus<'a>
        ensures same_core { result.core.ghost_name ≡ core.entry.ghost_name }
        ensures world { world_seen result ≡ world core.old ram.now.low.now ram.now.high.now }
        ensures rom { result.rom.now ≡ rom.now }
    {
        ReadBus {
            core,
            low: ram.low,
            high: ram.high,
            rom,
        }
    }

    #[tactic(auto, unfolding(crate::specs::World::read_at, crate::specs::Access::push_access))]
    pub fn read(&mut self, at: SnesAddress) -> u8
        ensures byte { result ≡ (read_at self.old.rom.now (world_seen self.old) at.bank at.addr).byte }
        ensures after { self.new ≡ core_seen self.old (read_at self.old.rom.now (world_seen self.old) at.bank at.addr).world.core }
        ensures ram { (read_at self.old.rom.now (world_seen self.old) at.bank at.addr).world.ram ≡ (world_seen self.old).ram }
    {
        let way = route_of(at);
        let place = place_of(self.core.io.wmadd, way, at.addr);
        let held = wram::peek(self.low, self.high, place);
        let got = read_io(self.core.io, self.rom, way, at, held);
        self.core.io = got.io;
        self.core.log = self.core.log.push(Access {
            write: false,
            bank: at.bank,
            addr: at.addr,
            byte: got.byte,
        });
        got.byte
    }
}

#[derive(Drop)]
pub struct Bus<'a, 'b> {
    pub core: Core,
    pub ram: &'a mut Ram<'b>,
    pub rom: &'a [u8],
}

impl<'a, 'b> Bus<'a, 'b> {
    ghost use Rattle.bus.specs.Lent.{world_on, holding};
    ghost use Rattle.bus.specs.World.{read_at, write_at};

    #[tactic(auto, unfolding(crate::specs::World::read_at))]
    pub fn read(&mut self, at: SnesAddress) -> u8
        ensures byte { result ≡ (read_at self.old.rom.now (world_on self.old) at.bank at.addr).byte }
        ensures after { self.new ≡ holding self.old (read_at self.old.rom.now (world_on self.old) at.bank at.addr).world }
    {
        let mut reads = ReadBus::of(&mut self.core, self.ram, self.rom);
        reads.read(at)
    }

    #[tactic(auto, unfolding(crate::specs::World::write_at, crate::specs::Access::push_access))]
    pub fn write(&mut self, at: SnesAddress, byte: u8)
        ensures { self.new ≡ holding self.old (write_at (world_on self.old) at.bank at.addr byte) }
    {
        let way = route_of(at);
        let place = place_of(self.core.io.wmadd, way, at.addr);
        self.core.olds = self.ram.keep_old(self.core.olds, place);
        self.ram.poke(place, byte);
        self.core.io = write_io(self.core.io, way, at.addr, byte);
        self.core.log = self.core.log.push(Access {
            write: true,
            bank: at.bank,
            addr: at.addr,
            byte,
        });
    }
}
