// What an operation adds to the figures.
ghost use Rattle.std.specs.Prelude.{◌≡◌};
ghost use Rattle.bus.specs.Access.{accesses_of};
ghost use Rattle.tally.specs.Figure.{writes};
ghost use Rattle.tally.specs.Share.{made_by, share_by, share_of};

use bus::access::Log;
use state::DmaState;
use touch::who::Who;

// The channel that had the bus, with its general bytes, units and table bytes; the number of the DMA state after, and 1 where held. The
// state is a number, since `count` takes any, modulo 4.
#[derive(Clone, Copy)]
pub struct Share {
    pub channel: u64,
    pub general: u64,
    pub units: u64,
    pub table: u64,
    pub state: u64,
    pub held: u64,
}

// How many accesses of a log are writes.
fn written(log: Log) -> u64
    ensures { result ≡ writes (accesses_of log) }
{
    let mut n: u64 = 0;
    for a in log.held() {
        n += a.write as u64;
    }
    n
}

// A unit counts once, whatever its length.
fn share_by(who: Who, written: u64, read: u64, state: u64, held: u64) -> Share
    ensures { result ≡ share_by who written read state held }
{
    let none = Share {
        channel: 0,
        general: 0,
        units: 0,
        table: 0,
        state,
        held,
    };
    match who {
        Who::Cpu => none,
        Who::Dma { channel } => Share {
            channel: (channel % 8) as u64,
            general: written,
            ..none
        },
        Who::Hdma { channel } => Share {
            channel: (channel % 8) as u64,
            units: (written != 0) as u64,
            table: read.saturating_sub(written),
            ..none
        },
    }
}

// The share of an operation: who had the bus in it, whether it was held, the DMA state after it, its accesses.
pub fn share_of(who: Who, held: bool, after: DmaState, log: Log) -> Share
    ensures { result ≡ share_of (made_by who held after log) }
{
    let w = written(log);
    let read = (log.held().len() as u64).saturating_sub(w);
    share_by(who, w, read, after as u64, held as u64)
}
