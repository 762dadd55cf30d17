// A channel's HDMA state in the DMA unit. A channel number counts modulo 8.
ghost use Rattle.std.specs.Prelude.{◌≡◌};
ghost use Rattle.hdma.specs.Engine.{hdma_at, set_hdma};

use state::{Dma, HdmaChannelState};

pub fn hdma_of(d: &Dma, ch: u8) -> HdmaChannelState
    ensures { result ≡ hdma_at d.now ch }
{
    d.channels[(ch % 8) as usize]
}

// A channel's state and the cycles to wait after it.
#[tactic(auto, unfolding(crate::specs::Engine::set_hdma))]
pub fn set_hdma(d: &mut Dma, ch: u8, h: HdmaChannelState, wait: u32)
    ensures { d.new ≡ set_hdma d.old ch h wait }
{
    d.channels[(ch % 8) as usize] = h;
    d.wait = wait;
}
