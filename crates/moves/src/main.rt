// Lists every move of the bench file on standard input, or those of one byte of work RAM: a line for each access as it goes.
#![tactic(auto)]

mod lines;
mod origin;
mod steps;
mod write;

use append::Sheet;
use fields::part::part;
use input::complaint::{output_failed, refused, say};
use input::{BENCH, argument_count, place_given, read_bench};
use script::rig::Rig;
use start::begin;
use std::io;
use steps::Run;
use walk::stand::Stand;
use write::write_script;

// A file that cannot be run has no line.
fn show(rt: HostRuntime, file: &[u8], only: Option<u32>) -> io::Result<()> {
    let mut low = [0u8; 65536];
    let mut high = [0u8; 65536];
    let mut entries = [0u8; 65536];
    let mut origins = [0u32; 256];
    let mut out = [0u8; 65536];
    let s = match begin(file, &mut low, &mut high) {
        Ok(s) => s,
        Err(refusal) => {
            refused(rt, b"moves", 0, refusal.number());
            return Ok(());
        }
    };
    let mut w = Run {
        rig: Rig {
            bench: s.bench,
            low: &mut low,
            high: &mut high,
            entries: &mut entries,
            rom: part(file, s.rom.at, s.rom.size),
        },
        stand: Stand {
            next: 0,
            done: 0,
            held: 0,
        },
        refusal: None,
        out: Sheet {
            text: &mut out,
            at: 0,
        },
    };
    let script = part(file, s.script.at, s.script.size);
    write_script(&rt, &mut w, &mut origins, script, only)
}

fn with_place(rt: HostRuntime, only: Option<u32>) {
    let mut buf = [0u8; BENCH];
    let Some(file) = read_bench(rt, b"moves", &mut buf) else {
        return;
    };
    if let Err(error) = show(rt, file, only) {
        output_failed(rt, b"moves", error);
    }
}

// Without an argument every access is listed.
fn main(rt: HostRuntime) {
    match argument_count(rt) {
        0 | 1 => with_place(rt, None),
        2 => {
            if let Some(at) = place_given(rt, b"moves") {
                with_place(rt, Some(at));
            }
        }
        _ => say(
            rt,
            b"moves: expected at most one argument, a place in work RAM such as $7E:1234\n",
        ),
    }
}
