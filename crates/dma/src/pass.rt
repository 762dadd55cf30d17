// An H-blank pass: the queued channels one by one, then the bus goes back.
ghost use Rattle.std.specs.Prelude.{◌≡◌};
ghost use Rattle.dma.specs.Pass.{drained_of, hdma_step};
ghost use Rattle.hdma.specs.Lent.{unit, unit_on, left_on};

use bus::bus::Bus;
use hdma::entry::init_channel;
use hdma::line::line_channel;
use state::{Dma, DmaState};
use transfer::bits::{clear_bit, lowest_bit};

// A general transfer that was stopped goes on where it paused.
#[tactic(auto, unfolding(crate::specs::Pass::drained_of))]
fn drained(dma: &mut Dma)
    ensures { dma.new ≡ drained_of dma.old }
{
    dma.state = if dma.running {
        DmaState::Dma
    } else {
        DmaState::Idle
    };
    dma.init = false;
}

#[tactic(auto, unfolding(crate::specs::Pass::hdma_step))]
pub fn hdma_step(bus: &mut Bus<'_, '_>, dma: &mut Dma)
    ensures { unit bus.new dma.new ≡ left_on bus.old (hdma_step bus.old.rom.now (unit_on bus.old dma.old)) }
{
    if dma.queue == 0 {
        drained(dma);
        return;
    }
    let ch = lowest_bit(dma.queue);
    dma.queue = clear_bit(dma.queue, ch);
    if dma.init {
        init_channel(bus, dma, ch);
    } else {
        line_channel(bus, dma, ch);
    }
}
