// A folder of up to 256 files, and one file more.
ghost use Rattle.std.specs.Prelude.{◌≡◌};
ghost use Rattle.common.specs.Refusal.{result_number};
ghost use Rattle.totals.specs.Folder.{no_files, folder_number, added, add_call};

use crate::{Column, Figures, empty, too_much, with_file};
use common::refusal::Refusal;

// How many files there are so far, and their figures: of all operations, and of the survivors.
#[derive(Clone, Copy)]
pub struct Folder {
    pub files: u64,
    pub all: Column,
    pub alive: Column,
}

pub fn none() -> Folder
    ensures { result ≡ no_files }
{
    Folder {
        files: 0,
        all: empty(),
        alive: empty(),
    }
}

// A total that does not fit is named before a folder that is full.
fn allowed(f: Folder, all: Figures, alive: Figures) -> Result<(), Refusal>
    ensures { result_number result ≡ folder_number f all.counts alive.counts }
{
    if too_much(f.all, all) | too_much(f.alive, alive) {
        return Err(Refusal::Total);
    }
    if 256 <= f.files {
        return Err(Refusal::Files);
    }
    Ok(())
}

// One file more. Its number is one above the count of those before.
pub fn add(f: Folder, all: Figures, alive: Figures) -> Result<Folder, Refusal>
    ensures { added f result ≡ add_call f all.counts alive.counts }
{
    allowed(f, all, alive)?;
    let files = f.files + 1;
    Ok(Folder {
        files,
        all: with_file(f.all, files, all),
        alive: with_file(f.alive, files, alive),
    })
}
