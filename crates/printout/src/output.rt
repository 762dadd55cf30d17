// What is shown of a bench file's rows, on standard output, whole lines in few writes: what a buffer holds goes out when no further line
// has room.
use crate::row::Show;
use crate::rows::{Stand, run_rows};
use append::Sheet;
use common::refusal::Refusal;
use fields::part::part;
use script::rig::Rig;
use start::begin;
use std::io;
use wording::line::append_line;

// All rows of a script. Each turn runs at least one, so as many turns as there are rows are enough.
fn write_rows(rt: &impl Print, rig: &mut Rig<'_>, script: &[u8], show: Show) -> io::Result<Stand> {
    let mut out = Sheet {
        text: &mut [0u8; 4096],
        at: 0,
    };
    let rows = script.len() / 8;
    let mut s = Stand {
        next: 0,
        refusal: None,
    };
    for turn in 0..rows {
        s = run_rows(rig, script, s.next, show, &mut out);
        rt.write_all(out.written())?;
        if s.refusal.is_some() | (rows <= s.next) {
            break;
        }
    }
    Ok(s)
}

// A file that cannot be run has no row.
fn write_shown(rt: &impl Print, file: &[u8], show: Show) -> io::Result<Stand> {
    let mut low = [0u8; 65536];
    let mut high = [0u8; 65536];
    let mut entries = [0u8; 65536];
    let s = match begin(file, &mut low, &mut high) {
        Ok(s) => s,
        Err(refusal) => {
            return Ok(Stand {
                next: 0,
                refusal: Some(refusal),
            });
        }
    };
    let mut rig = Rig {
        bench: s.bench,
        low: &mut low,
        high: &mut high,
        entries: &mut entries,
        rom: part(file, s.rom.at, s.rom.size),
    };
    write_rows(rt, &mut rig, part(file, s.script.at, s.script.size), show)
}

// Document 01's line of a file that cannot be run.
fn write_refused(rt: &impl Print, refusal: Refusal) -> io::Result<()> {
    let mut out = Sheet {
        text: &mut [0u8; 105],
        at: 0,
    };
    append_line(&mut out, 0, 0, refusal.number(), 0, 0);
    rt.write_all(out.written())
}

// All that the trace program prints for a file.
pub fn write_trace(rt: &impl Print, file: &[u8]) -> io::Result<()> {
    let s = write_shown(rt, file, Show::Line)?;
    match s.refusal {
        Some(refusal) if s.next == 0 => write_refused(rt, refusal),
        _ => Ok(()),
    }
}

// The sum of work RAM after each row.
pub fn write_sums(rt: &impl Print, file: &[u8]) -> io::Result<Stand> {
    write_shown(rt, file, Show::Sum)
}
