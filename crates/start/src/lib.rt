// A bench file before its first row: its check, the RAM fill, a fresh bench, and where its ROM and its script are.
#![tactic(auto)]

pub mod fill;

ghost use Rattle.std.specs.Prelude.{◌≡◌};
ghost use Rattle.start.specs.Start.{span_of, answered, start_run};

use bench::fresh::fresh;
use benchfile::check::file_check;
use benchfile::contents::{body, size, start};
use common::refusal::Refusal;
use fields::word::two;
use fill::fill_bank;
use ring::Bench;

// A part of the file: where it starts, and its length.
#[derive(Clone, Copy)]
pub struct Span {
    pub at: usize,
    pub size: usize,
}

// The bench to run a file on, and where its ROM and its script are.
#[derive(Clone, Copy)]
pub struct Started {
    pub bench: Bench,
    pub rom: Span,
    pub script: Span,
}

fn section_span(file: &[u8], section: u8) -> Span
    ensures { result ≡ span_of file.now section }
{
    Span {
        at: start(file, section) as usize,
        size: size(file, section) as usize,
    }
}

// A broken file is refused before anything is filled; fresh then finds the banks as the run will, and takes them apart as here.
pub fn begin(file: &[u8], low: &mut [u8], high: &mut [u8]) -> Result<Started, Refusal>
    ensures { answered result low.new high.new ≡ start_run file.now low.old high.old }
{
    file_check(file)?;
    let fill = body(file, 1);
    fill_bank(low, fill);
    fill_bank(high, fill);
    match fresh(low, high, 65536, two(body(file, 0), 0)) {
        Ok(bench) => Ok(Started {
            bench,
            rom: section_span(file, 2),
            script: section_span(file, 3),
        }),
        Err(refused) => Err(refused.refusal),
    }
}
