// Who has the bus in a cycle, by the machine before it.
ghost use Rattle.std.specs.Prelude.{◌≡◌};
ghost use Rattle.touch.specs.Who.{who_from, who_of, starts_from, starts_at_zero};

use registers::Io;
use state::{Dma, DmaProgress, DmaState, Machine};
use transfer::bits::lowest_bit;

#[derive(Clone, Copy)]
pub enum Who {
    Cpu,
    Dma { channel: u8 },
    Hdma { channel: u8 },
}

fn who_from(progress: Option<DmaProgress>) -> Who
    ensures { result ≡ who_from progress }
{
    match progress {
        None => Who::Cpu,
        Some(p) => Who::Dma { channel: p.channel },
    }
}

// A pass serves the lowest channel of its queue; else the transfer in progress has the bus.
#[tactic(auto, unfolding(crate::specs::Who::who_of))]
pub fn who_of(d: Dma) -> Who
    ensures { result ≡ who_of d }
{
    match d.state {
        DmaState::Idle | DmaState::Startup => Who::Cpu,
        DmaState::Dma => who_from(d.progress),
        DmaState::Hdma => Who::Hdma {
            channel: lowest_bit(d.queue),
        },
    }
}

// The first byte of a transfer whose byte count is 0.
fn starts_from(io: Io, progress: Option<DmaProgress>) -> bool
    ensures { result ≡ starts_from io progress }
{
    match progress {
        None => false,
        Some(p) => p.unit == 0 && io.channels[(p.channel % 8) as usize].das == 0,
    }
}

// Only where a general transfer has the bus.
#[tactic(auto, unfolding(crate::specs::Who::starts_at_zero))]
pub fn starts_at_zero(m: Machine) -> bool
    ensures { result ≡ starts_at_zero m }
{
    m.dma.state == DmaState::Dma && starts_from(m.io, m.dma.progress)
}
