// The figures of a folder: 29 of each file, added up file by file in a column, with the largest of each and the file that has it.
#![tactic(auto)]

pub mod folder;
pub mod limit;
pub mod mean;
mod place;

ghost use Rattle.std.specs.Prelude.{◌≡◌, false};
ghost use Rattle.totals.specs.Column.{no_column, passes, column_with};

use limit::passes_at;
use place::{larger, which};

// A file's 29 figures.
#[derive(Clone, Copy)]
pub struct Figures {
    pub counts: [u64; 29],
}

// Of each figure the sum over the files so far, the largest, and the number of the file that has it.
#[derive(Clone, Copy)]
pub struct Column {
    pub sum: [u64; 29],
    pub most: [u64; 29],
    pub file: [u64; 29],
}

fn empty() -> Column
    ensures { result ≡ no_column }
{
    Column {
        sum: [0; 29],
        most: [0; 29],
        file: [0; 29],
    }
}

// Whether some total would pass 2^64 - 1.
fn too_much(c: Column, f: Figures) -> bool
    ensures { result ≡ passes c.sum f.counts }
{
    let mut over = false;
    for i in 0..29 {
        over |= passes_at(c.sum[i], f.counts[i]);
    }
    over
}

// The column with one file more, whose number is `file`.
fn with_file(c: Column, file: u64, f: Figures) -> Column
    requires { passes c.sum f.counts ≡ false }
    ensures { result ≡ column_with c file f.counts }
{
    let mut out = empty();
    for i in 0..29 {
        let x = f.counts[i];
        let most = c.most[i];
        out.sum[i] = c.sum[i] + x;
        out.most[i] = larger(file, most, x);
        out.file[i] = which(file, c.file[i], most, x);
    }
    out
}
