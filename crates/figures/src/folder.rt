// The files one after the other, to the first that cannot be read or is refused.
ghost use Rattle.std.specs.Prelude.{◌-◌, min, ◌≡◌};
ghost use Rattle.figures.specs.Count.{counted, no_count};

use crate::count::{Counted, count};
use crate::progress::{clear, show, terminal};
use common::refusal::Refusal;
use fields::part::part;
use input::{BENCH, argument, read_named};
use std::fs::File;
use totals::Figures;
use totals::folder::{Folder, add, none};

// How a file that was counted ended.
pub type End = Result<(), tally::file::Refused>;

// The file of an argument that the folder refuses, and why.
#[derive(Clone, Copy)]
pub struct Refused {
    pub file: u64,
    pub refusal: Refusal,
}

#[derive(Clone, Copy)]
pub struct Folded {
    pub folder: Folder,
    pub refused: Option<Refused>,
}

// The figures of a file that was not counted.
fn uncounted() -> Counted
    ensures { counted result ≡ no_count }
{
    Counted {
        ended: Ok(()),
        all: Figures { counts: [0; 29] },
        alive: Figures { counts: [0; 29] },
    }
}

// None where the file cannot be read. A file behind the last that has a place is not opened.
fn next_file(rt: HostRuntime, i: usize, to: &mut Option<File>, of: u64) -> Option<Counted> {
    if 256 < i {
        return Some(uncounted());
    }
    let mut name = [0u8; 4096];
    let mut buf = [0u8; BENCH];
    let n = argument(rt, i, &mut name);
    let file = read_named(rt, b"figures", part(&name, 0, n), &mut buf)?;
    show(to, i as u64, of);
    let c = count(file);
    clear(to);
    Some(c)
}

// How many files are counted at the most.
fn counted_of(args: usize) -> u64
    ensures { result ≡ min (args - 1) 256 }
{
    args.saturating_sub(1).min(256) as u64
}

// `args` counts the program's name too: file i is argument i, and its end goes to place i. None where a file cannot be read.
pub fn count_files(rt: HostRuntime, args: usize, ends: &mut [End; 257]) -> Option<Folded> {
    let mut to = terminal(rt);
    let of = counted_of(args);
    let mut folder = none();
    for i in 1..args {
        let c = next_file(rt, i, &mut to, of)?;
        folder = match add(folder, c.all, c.alive) {
            Ok(more) => more,
            Err(refusal) => {
                let refused = Some(Refused {
                    file: i as u64,
                    refusal,
                });
                return Some(Folded { folder, refused });
            }
        };
        if let Some(end) = ends.get_mut(i) {
            *end = c.ended;
        }
    }
    Some(Folded {
        folder,
        refused: None,
    })
}
