// Writes the page of work RAM that holds a place, after the bench file on standard input.
#![tactic(auto)]

use append::Sheet;
use bench::page::page_look;
use dump::page::dump_page;
use fields::part::part;
use input::complaint::{output_failed, refused, say};
use input::{BENCH, argument_count, place_given, read_bench};
use printout::row::Show;
use printout::rows::run_rows;
use script::rig::Rig;
use start::begin;
use std::io;

// 16 lines of 78 bytes.
fn write_page<'a>(rt: HostRuntime, low: &'a [u8], high: &'a [u8], page: u16) -> io::Result<()> {
    let mut out = Sheet {
        text: &mut [0u8; 1248],
        at: 0,
    };
    dump_page(&mut out, page, page_look(low, high, page));
    rt.write_all(out.written())
}

// A file that cannot be run has no page; after a refused row the page is as that row left it.
fn show(rt: HostRuntime, file: &[u8], page: u16) -> io::Result<()> {
    let mut low = [0u8; 65536];
    let mut high = [0u8; 65536];
    let mut entries = [0u8; 65536];
    let mut lines = Sheet {
        text: &mut [0u8; 105],
        at: 0,
    };
    let s = match begin(file, &mut low, &mut high) {
        Ok(s) => s,
        Err(refusal) => {
            refused(rt, b"page", 0, refusal.number());
            return Ok(());
        }
    };
    let mut rig = Rig {
        bench: s.bench,
        low: &mut low,
        high: &mut high,
        entries: &mut entries,
        rom: part(file, s.rom.at, s.rom.size),
    };
    let script = part(file, s.script.at, s.script.size);
    let e = run_rows(&mut rig, script, 0, Show::Nothing, &mut lines);
    if let Some(refusal) = e.refusal {
        refused(rt, b"page", e.next, refusal.number());
    }
    write_page(rt, &low, &high, page)
}

fn main(rt: HostRuntime) {
    if argument_count(rt) != 2 {
        say(
            rt,
            b"page: expected one argument, a place in work RAM such as $7E:1234\n",
        );
        return;
    }
    let Some(at) = place_given(rt, b"page") else {
        return;
    };
    let mut buf = [0u8; BENCH];
    let Some(file) = read_bench(rt, b"page", &mut buf) else {
        return;
    };
    if let Err(error) = show(rt, file, (at / 256) as u16) {
        output_failed(rt, b"page", error);
    }
}
