// The programs assemble and list: read, call, write. What is wrong goes to standard error in one line, and nothing to standard output.
#![tactic(auto)]

pub mod mark;
pub mod message;
pub mod name;

use append::Sheet;
use assembler::assemble::assemble_text;
use benchfile::check::file_check;
use fields::part::part;
use input::complaint::{fail, output_failed, say};
use input::{BENCH, read_alone, read_file};
use lister::list::list_file;
use message::report;
use name::name_in;
use reader::text::name_at;
use std::io;

// The bench file of a text, and the bytes of its ROM file.
fn assembled(rt: HostRuntime, text: &[u8], rom: &[u8]) -> io::Result<()> {
    let mut out = [0u8; 65537];
    match assemble_text(&mut out, text, rom) {
        Some(n) => rt.write_all(part(&out, 0, n)),
        None => {
            report(rt, text);
            Ok(())
        }
    }
}

// A ROM file over 65,536 bytes makes no bench.
fn with_file(rt: HostRuntime, text: &[u8], name: &[u8]) -> io::Result<()> {
    let mut rom = [0u8; 65537];
    match read_file(rt, name, &mut rom) {
        Ok(n) => assembled(rt, text, &rom[..n]),
        Err(error) => {
            fail(rt, name, error);
            Ok(())
        }
    }
}

// The longest text, and one byte more.
const TEXT: usize = 524289;

fn with_text(rt: HostRuntime, text: &[u8]) -> io::Result<()> {
    if text.len() == TEXT {
        say(rt, b"assemble: the text is longer than 524288 bytes\n");
        return Ok(());
    }
    let name = match name_at(text) {
        Some(at) => name_in(text, at),
        None => b"",
    };
    if name.is_empty() {
        assembled(rt, text, name)
    } else {
        with_file(rt, text, name)
    }
}

// The room comes by reference: an array of this length that is lent where it is made is too long for the check.
fn with_room(rt: HostRuntime, room: &mut [u8; TEXT]) {
    let Some(text) = read_alone(rt, b"assemble", b"text", room) else {
        return;
    };
    if let Err(error) = with_text(rt, text) {
        output_failed(rt, b"assemble", error);
    }
}

pub fn assemble(rt: HostRuntime) {
    with_room(rt, &mut [0u8; TEXT]);
}

fn listed(rt: HostRuntime, file: &[u8]) -> io::Result<()> {
    if file_check(file).is_err() {
        say(rt, b"list: standard input is no bench file\n");
        return Ok(());
    }
    let mut out = Sheet {
        text: &mut [0u8; 327680],
        at: 0,
    };
    list_file(&mut out, file);
    rt.write_all(out.written())
}

pub fn list(rt: HostRuntime) {
    let mut buf = [0u8; BENCH];
    let Some(file) = read_alone(rt, b"list", b"bench file", &mut buf) else {
        return;
    };
    if let Err(error) = listed(rt, file) {
        output_failed(rt, b"list", error);
    }
}
