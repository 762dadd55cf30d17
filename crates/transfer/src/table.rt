// The bytes of a channel's HDMA table. They are only read, so banks that are only looked at are enough.
ghost use Rattle.std.specs.Prelude.{◌≡◌};
ghost use Rattle.bus.specs.Lent.{world_seen, core_seen};
ghost use Rattle.transfer.specs.Table.{table_read, das_loaded};

use bus::bus::ReadBus;
use common::snes_address::SnesAddress;
use common::u16_split::join;
use registers::channel::DmaChannel;

// A2A steps, then the bus reads at what it was.
#[tactic(auto, unfolding(crate::specs::Table::table_read))]
pub fn read_table(bus: &mut ReadBus<'_>, ch: u8) -> u8
    ensures byte { result ≡ (table_read bus.old.rom.now (world_seen bus.old) ch).byte }
    ensures after { bus.new ≡ core_seen bus.old (table_read bus.old.rom.now (world_seen bus.old) ch).world.core }
    ensures ram { (table_read bus.old.rom.now (world_seen bus.old) ch).world.ram ≡ (world_seen bus.old).ram }
{
    let c = bus.core.channel(ch);
    let a2a = c.a2a.wrapping_add(1);
    bus.core.set_channel(ch, DmaChannel { a2a, ..c });
    bus.read(SnesAddress {
        bank: c.a1b,
        addr: c.a2a,
    })
}

// The indirect address: two bytes of the table go to DAS.
#[tactic(auto, unfolding(crate::specs::Table::das_loaded))]
pub fn load_das(bus: &mut ReadBus<'_>, ch: u8)
    ensures after { bus.new ≡ core_seen bus.old (das_loaded bus.old.rom.now (world_seen bus.old) ch).core }
    ensures ram { (das_loaded bus.old.rom.now (world_seen bus.old) ch).ram ≡ (world_seen bus.old).ram }
{
    let low = read_table(bus, ch);
    let high = read_table(bus, ch);
    let c = bus.core.channel(ch);
    let das = join(low, high);
    bus.core.set_channel(ch, DmaChannel { das, ..c });
}
