// The machine at power-on.
ghost use Rattle.std.specs.Prelude.{◌≡◌};
ghost use Rattle.machine.specs.PowerOn.{power_on_dma, power_on_machine};

use state::{Board, Dma, DmaState, HdmaChannelState, Machine};

#[tactic(auto, unfolding(crate::specs::PowerOn::power_on_dma))]
fn power_on_dma() -> Dma
    ensures { result ≡ power_on_dma }
{
    Dma {
        state: DmaState::Idle,
        wait: 0,
        running: false,
        progress: None,
        pending: false,
        init: false,
        queue: 0,
        channels: [HdmaChannelState {
            counter: 0,
            transfer: false,
            finished: false,
        }; 8],
    }
}

#[tactic(auto, unfolding(crate::specs::PowerOn::power_on_machine))]
pub fn power_on_machine(bitcycles: u16) -> Machine
    ensures { result ≡ power_on_machine bitcycles }
{
    Machine {
        io: registers::power_on::power_on(),
        dma: power_on_dma(),
        board: Board {
            pad1: 0,
            pad2: 0,
            nmi: false,
            bitcycles,
            clock: 0,
        },
    }
}
