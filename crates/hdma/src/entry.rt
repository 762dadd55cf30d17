// Table entries: the first of a frame, a new one where the counter ran out, and the counter's step.
ghost use Rattle.std.specs.Prelude.{◌≡◌, is_none, unwrap_or};
ghost use Rattle.bus.specs.Lent.{world_seen};
ghost use Rattle.hdma.specs.Lent.{unit, unit_on, left_on, read_unit, unit_seen, left_seen};
ghost use Rattle.hdma.specs.Entry.{reloaded, counted, init_channel};

use crate::engine::{hdma_of, set_hdma};
use bus::bus::{Bus, ReadBus};
use registers::channel::DmaChannel;
use state::{Dma, HdmaChannelState};
use transfer::bits::flag;
use transfer::table::{load_das, read_table};

// A new entry, where the low seven bits of the counter are 0. Answers the cost so far less one; none, where the table ended. The bus is only read.
#[tactic(auto, unfolding(crate::specs::Entry::reloaded))]
pub fn reload_entry(bus: &mut ReadBus<'_>, dma: &mut Dma, ch: u8, indirect: bool) -> Option<u8>
    ensures stop { is_none result ≡ (reloaded bus.old.rom.now (unit_seen bus.old dma.old) ch indirect).stop }
    ensures wait { unwrap_or result 7 ≡ (reloaded bus.old.rom.now (unit_seen bus.old dma.old) ch indirect).wait }
    ensures after { read_unit bus.new dma.new ≡ left_seen bus.old (reloaded bus.old.rom.now (unit_seen bus.old dma.old) ch indirect).after }
    ensures ram { (reloaded bus.old.rom.now (unit_seen bus.old dma.old) ch indirect).after.world.ram ≡ (world_seen bus.old).ram }
{
    let h = hdma_of(dma, ch);
    if flag(h.counter, 0x7F) {
        return Some(7);
    }
    let counter = read_table(bus, ch);
    if counter == 0 {
        let ended = HdmaChannelState {
            finished: true,
            ..h
        };
        set_hdma(dma, ch, ended, 7);
        return None;
    }
    let started = HdmaChannelState {
        counter,
        transfer: true,
        ..h
    };
    let wait = dma.wait;
    set_hdma(dma, ch, started, wait);
    if indirect {
        load_das(bus, ch);
        return Some(23);
    }
    Some(7)
}

// The counter goes down. Bit 7 of what it was asks for a transfer on each line.
#[tactic(auto, unfolding(crate::specs::Entry::counted))]
pub fn count_line(dma: &mut Dma, ch: u8, wait: u32)
    ensures { dma.new ≡ counted dma.old ch wait }
{
    let h = hdma_of(dma, ch);
    let counter = h.counter.wrapping_sub(1);
    let transfer = flag(h.counter, 0x80) || !flag(counter, 0x7F);
    let next = HdmaChannelState {
        counter,
        transfer,
        ..h
    };
    set_hdma(dma, ch, next, wait);
}

// Once a frame the table pointer goes back to the table's start, and the first entry is read.
#[tactic(auto, unfolding(crate::specs::Entry::init_channel))]
pub fn init_channel(bus: &mut Bus<'_, '_>, dma: &mut Dma, ch: u8)
    ensures { unit bus.new dma.new ≡ left_on bus.old (init_channel bus.old.rom.now (unit_on bus.old dma.old) ch) }
{
    let c = bus.channel(ch);
    let indirect = flag(c.dmap, 0x40);
    bus.set_channel(ch, DmaChannel { a2a: c.a1t, ..c });
    let mut reads = ReadBus::of(&mut bus.core, bus.ram, bus.rom);
    let counter = read_table(&mut reads, ch);
    let h = HdmaChannelState {
        counter,
        transfer: counter != 0,
        finished: counter == 0,
    };
    if (counter != 0) & indirect {
        load_das(&mut reads, ch);
        set_hdma(dma, ch, h, 23);
    } else {
        set_hdma(dma, ch, h, 7);
    }
}
