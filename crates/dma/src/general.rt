// General transfers: a channel is picked, or one byte moves.
ghost use Rattle.std.specs.Prelude.{◌≡◌};
ghost use Rattle.dma.specs.General.{chosen, after_byte, dma_step};
ghost use Rattle.hdma.specs.Lent.{unit, unit_on, left_on, core_on};

use bus::bus::Bus;
use registers::channel::DmaChannel;
use state::{Dma, DmaProgress, DmaState};
use transfer::bits::{clear_bit, lowest_bit};
use transfer::byte::transfer_byte;

// Channels run lowest bit first; with none left the bus goes back.
#[tactic(auto, unfolding(crate::specs::General::chosen))]
fn choose(dma: &mut Dma, mask: u8)
    ensures { dma.new ≡ chosen dma.old mask }
{
    if mask == 0 {
        dma.state = DmaState::Idle;
        dma.running = false;
    } else {
        let channel = lowest_bit(mask);
        dma.progress = Some(DmaProgress { channel, unit: 0 });
        dma.wait = 7;
    }
}

// DAS goes down as the bus left it; at 0 the channel is done.
#[tactic(auto, unfolding(crate::specs::General::after_byte))]
fn after_byte(bus: &mut Bus<'_, '_>, dma: &mut Dma, channel: u8, step: u32)
    ensures { unit bus.new dma.new ≡ core_on bus.old (after_byte bus.old.core dma.old channel step) }
{
    let c = bus.channel(channel);
    let das = c.das.wrapping_sub(1);
    let mask = bus.mdmaen();
    bus.set_channel(channel, DmaChannel { das, ..c });
    dma.wait = 7;
    if das == 0 {
        bus.set_mdmaen(clear_bit(mask, channel));
        dma.progress = None;
    } else {
        let unit = step.wrapping_add(1);
        dma.progress = Some(DmaProgress { channel, unit });
    }
}

// If no transfer is in progress, the step picks a channel and leaves.
#[tactic(auto, unfolding(crate::specs::General::dma_step, crate::specs::General::step_from))]
pub fn dma_step(bus: &mut Bus<'_, '_>, dma: &mut Dma)
    ensures { unit bus.new dma.new ≡ left_on bus.old (dma_step bus.old.rom.now (unit_on bus.old dma.old)) }
{
    let Some(DmaProgress { channel, unit }) = dma.progress else {
        let mask = bus.mdmaen();
        choose(dma, mask);
        return;
    };
    transfer_byte(bus, channel, unit);
    after_byte(bus, dma, channel, unit);
}
