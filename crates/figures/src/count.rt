// The count of one file.
ghost use Rattle.std.specs.Prelude.{◌≡◌};
ghost use Rattle.figures.specs.Count.{counted, count_of};

use tally::file::{Refused, count_file};
use totals::Figures;

// How the file ended; the figures of all operations, and of the survivors.
#[derive(Clone, Copy)]
pub struct Counted {
    pub ended: Result<(), Refused>,
    pub all: Figures,
    pub alive: Figures,
}

// What is lent is zeros, with a place for each row: a file has fewer than 8,192.
pub fn count(file: &[u8]) -> Counted
    ensures { counted result ≡ count_of file.now }
{
    let mut low = [0u8; 65536];
    let mut high = [0u8; 65536];
    let mut entries = [0u8; 65536];
    let mut alive = [0u16; 8192];
    let mut all = [0u64; 29];
    let mut kept = [0u64; 29];
    let ended = count_file(
        file,
        &mut low,
        &mut high,
        &mut entries,
        &mut alive,
        &mut all,
        &mut kept,
    );
    Counted {
        ended,
        all: Figures { counts: all },
        alive: Figures { counts: kept },
    }
}
