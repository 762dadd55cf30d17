// One master cycle of the DMA unit, and whether it holds the bus.
ghost use Rattle.std.specs.Prelude.{◌≡◌};
ghost use Rattle.dma.specs.Cycle.{aligned_wait, start_pending, due_of, acted, updated};
ghost use Rattle.hdma.specs.Lent.{unit, unit_on, left_on};

use crate::general::dma_step;
use crate::pass::hdma_step;
use bus::bus::Bus;
use state::{Dma, DmaState};

// Up to the next slot of eight cycles, and eight more, less the cycle that starts it.
fn aligned_wait(clock: u64) -> u32
    ensures { result ≡ aligned_wait clock }
{
    (8 - clock % 8) as u32 + 7
}

// MDMAEN asks for a transfer, and none is running: it starts, whatever the unit was doing.
#[tactic(auto, unfolding(crate::specs::Cycle::start_pending))]
fn start_pending_dma(dma: &mut Dma, mask: u8, clock: u64)
    ensures { dma.new ≡ start_pending dma.old mask clock }
{
    if !dma.running && mask != 0 {
        dma.state = DmaState::Startup;
        dma.running = true;
        dma.wait = aligned_wait(clock);
    }
}

// A pending H-blank pass takes over only between actions.
#[tactic(auto, unfolding(crate::specs::Cycle::due_of))]
fn due(dma: &Dma) -> bool
    ensures { result ≡ due_of dma.now }
{
    dma.pending && dma.wait == 0
}

// The action of the unit's state; whether it holds the bus.
#[tactic(auto, unfolding(crate::specs::Cycle::acted, crate::specs::Cycle::act_by))]
fn act(bus: &mut Bus<'_, '_>, dma: &mut Dma) -> bool
    ensures held { result ≡ (acted bus.old.rom.now (unit_on bus.old dma.old)).held }
    ensures after { unit bus.new dma.new ≡ left_on bus.old (acted bus.old.rom.now (unit_on bus.old dma.old)).after }
{
    match dma.state {
        DmaState::Idle => return false,
        DmaState::Startup => dma.state = DmaState::Dma,
        DmaState::Dma => dma_step(bus, dma),
        DmaState::Hdma => hdma_step(bus, dma),
    }
    true
}

#[tactic(auto, unfolding(crate::specs::Cycle::updated))]
pub fn update_dma_cycles(bus: &mut Bus<'_, '_>, dma: &mut Dma, clock: u64) -> bool
    ensures held { result ≡ (updated bus.old.rom.now (unit_on bus.old dma.old) clock).held }
    ensures after { unit bus.new dma.new ≡ left_on bus.old (updated bus.old.rom.now (unit_on bus.old dma.old) clock).after }
{
    let mask = bus.mdmaen();
    start_pending_dma(dma, mask, clock);
    if due(dma) {
        dma.state = DmaState::Hdma;
        dma.pending = false;
        dma.queue = bus.hdmaen();
        dma.wait = 17;
        return true;
    }
    if 0 < dma.wait {
        dma.wait -= 1;
        return true;
    }
    act(bus, dma)
}
