// The count of a bench file. What is lent comes apart: a Rig has a bench and a ROM, and both come of the file here.
ghost use Rattle.std.specs.Prelude.{◌≡◌};
ghost use Rattle.tally.specs.File.{halt_of, file_ran, file_run, file_counting, file_count};

use crate::run::{Book, Tally, tally_script};
use common::refusal::Refusal;
use fields::part::part;
use script::rig::Rig;
use start::begin;

// The refusal of the file, at row 0, or of the row that ended it, by its number.
#[derive(Clone, Copy)]
pub struct Refused {
    pub refusal: Refusal,
    pub row: usize,
}

// One run from fresh. `limits` says how many calls the first so many rows make.
#[tactic(auto, unfolding(crate::specs::File::file_run), using(ring::proofs::Also::refuses))]
fn run_file(
    file: &[u8],
    low: &mut [u8],
    high: &mut [u8],
    entries: &mut [u8],
    limits: &[u16],
    alive: &mut [u16],
    totals: &mut [u64],
) -> Result<(), Refused>
    ensures { file_ran (halt_of result) low.new high.new entries.new alive.new totals.new ≡ file_run file.now low.old high.old entries.old limits.now alive.old totals.old }
{
    let s = match begin(file, low, high) {
        Ok(s) => s,
        Err(refusal) => return Err(Refused { refusal, row: 0 }),
    };
    let mut rig = Rig {
        bench: s.bench,
        low,
        high,
        entries,
        rom: part(file, s.rom.at, s.rom.size),
    };
    let mut t = Book {
        tally: Tally {
            number: 0,
            row: 0,
            top: 0,
        },
        refusal: None,
        alive,
        totals,
    };
    tally_script(
        &mut rig,
        &mut t,
        part(file, s.script.at, s.script.size),
        limits,
    );
    match t.refusal {
        None => Ok(()),
        Some(refusal) => Err(Refused {
            refusal,
            row: t.tally.row,
        }),
    }
}

// Both columns: all accepted operations, and the survivors alone, in a second run of them. `alive`, with a place for each row, and both totals
// are lent as zeros. Nobody asks what survives the second run, so it has one place for that.
pub fn count_file(
    file: &[u8],
    low: &mut [u8],
    high: &mut [u8],
    entries: &mut [u8],
    alive: &mut [u16],
    all: &mut [u64],
    kept: &mut [u64],
) -> Result<(), Refused>
    ensures { file_counting (halt_of result) low.new high.new entries.new alive.new all.new kept.new ≡ file_count file.now low.old high.old entries.old alive.old all.old kept.old }
{
    let mut again = [0u16; 1];
    let r = run_file(file, low, high, entries, &again[0..0], alive, all);
    let _ = run_file(file, low, high, entries, alive, &mut again, kept);
    r
}
