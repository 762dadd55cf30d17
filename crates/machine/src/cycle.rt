// Buttons, event, automatic joypad, line due, NMI edge, timer hit, DMA, clock.
ghost use Rattle.std.specs.Prelude.{◌≡◌};
ghost use Rattle.machine.specs.Cycle.{armed, rising, ticked, machine_after};
ghost use Rattle.machine.specs.Lent.{cycled_on, told};
ghost use Rattle.wram.specs.Lent.{holding};

use crate::event::{Event, is_frame, settle, time_up};
use bus::access::{Log, opened_core};
use bus::bus::Bus;
use dma::cycle::update_dma_cycles;
use signals::flags::nmi_line;
use state::{Board, Dma, Machine};
use wram::{Olds, Ram};

// What a cycle says beside the machine that it leaves: held, NMI edge, the accesses and the bytes overwritten.
#[derive(Clone, Copy)]
pub struct Turn {
    pub held: bool,
    pub edge: bool,
    pub log: Log,
    pub olds: Olds,
}

// With HDMAEN not 0 a line due makes a pass pending, and a frame's start one that initialises.
#[tactic(auto, unfolding(crate::specs::Cycle::armed))]
fn arm(dma: &mut Dma, mask: u8, frame: bool, line: bool)
    ensures { dma.new ≡ armed dma.old mask frame line }
{
    if mask != 0 {
        dma.pending = dma.pending || frame || line;
        dma.init = dma.init || frame;
    }
}

fn rises(was: bool, line: bool) -> bool
    ensures { result ≡ rising was line }
{
    line && !was
}

fn tick(board: &mut Board, nmi: bool)
    ensures { board.new ≡ ticked board.old nmi }
{
    board.nmi = nmi;
    board.clock = board.clock.wrapping_add(1);
}

#[tactic(auto, unfolding(crate::specs::Cycle::cycled))]
pub fn cycle(
    m: &mut Machine,
    ram: &mut Ram<'_>,
    rom: &[u8],
    event: Event,
    line: bool,
    hit: bool,
) -> Turn
    ensures turn { result ≡ told (cycled_on rom.now m.old ram.old event line hit) }
    ensures machine { m.new ≡ machine_after (cycled_on rom.now m.old ram.old event line hit) }
    ensures ram { ram.new ≡ holding ram.old (cycled_on rom.now m.old ram.old event line hit).after.world.ram }
{
    let io = settle(m.io, m.board.pad1, m.board.pad2, event, m.board.bitcycles);
    let nmi = nmi_line(io);
    let edge = rises(m.board.nmi, nmi);
    let mut bus = Bus {
        core: opened_core(time_up(io, hit)),
        ram,
        rom,
    };
    arm(&mut m.dma, bus.hdmaen(), is_frame(event), line);
    let held = update_dma_cycles(&mut bus, &mut m.dma, m.board.clock);
    m.io = bus.core.io;
    tick(&mut m.board, nmi);
    Turn {
        held,
        edge,
        log: bus.core.log,
        olds: bus.core.olds,
    }
}
