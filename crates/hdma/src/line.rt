// A line of one channel: a new entry if one is due, a unit if one is due, then the counter.
ghost use Rattle.std.specs.Prelude.{◌≡◌, ◌+◌, ◌*◌};
ghost use Rattle.hdma.specs.Lent.{unit, unit_on, left_on};
ghost use Rattle.hdma.specs.Line.{line_channel};

use crate::engine::hdma_of;
use crate::entry::{count_line, reload_entry};
use bus::bus::{Bus, ReadBus};
use state::Dma;
use transfer::bits::flag;
use transfer::unit::transfer_unit;

// What a line waits with so many bytes moved: eight cycles each upon what its entry cost.
fn line_wait(wait: u8, bytes: u8) -> u32
    ensures { result ≡ wait + bytes * 8 }
{
    wait as u32 + (bytes as u32) * 8
}

#[tactic(auto, unfolding(crate::specs::Line::line_channel))]
pub fn line_channel(bus: &mut Bus<'_, '_>, dma: &mut Dma, ch: u8)
    ensures { unit bus.new dma.new ≡ left_on bus.old (line_channel bus.old.rom.now (unit_on bus.old dma.old) ch) }
{
    if hdma_of(dma, ch).finished {
        return;
    }
    let c = bus.channel(ch);
    let indirect = flag(c.dmap, 0x40);
    let mut reads = ReadBus::of(&mut bus.core, bus.ram, bus.rom);
    let Some(wait) = reload_entry(&mut reads, dma, ch, indirect) else {
        return;
    };
    let bytes = if hdma_of(dma, ch).transfer {
        transfer_unit(bus, ch, indirect)
    } else {
        0
    };
    count_line(dma, ch, line_wait(wait, bytes));
}
