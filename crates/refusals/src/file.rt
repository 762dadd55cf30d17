// File check, section number and section look, tried (number 11). Given are the contents, the file's length, the place of the script, its
// first row and the section.
use crate::look::say_part;
use crate::say::say_last;
use benchfile::check::file_check;
use benchfile::section::{section_look, section_number};
use common::refusal::number_of;
use fields::part::part;
use fields::put;
use fields::word::{byte, four};
use std::io;

// The longest file, and one byte more.
const FILE: usize = 65537;

// Contents and row laid over zeros.
fn built(file: &mut [u8], given: &[u8]) {
    put(file, 0, part(given, 0, 32));
    put(file, four(given, 36) as usize, part(given, 40, 5));
}

pub fn file_tried(rt: HostRuntime, given: &[u8]) -> io::Result<()> {
    let mut file = [0u8; FILE];
    built(&mut file, given);
    let file = part(&file, 0, four(given, 32) as usize);
    say_last(rt, number_of(file_check(file).err()))
}

fn section(rt: HostRuntime, file: &[u8], which: u8) -> io::Result<()> {
    say_part(rt, section_look(file, which))?;
    say_last(rt, section_number(file, which))
}

// Section look gives as many bytes as the contents say, and none where it is refused.
pub fn section_tried(rt: HostRuntime, given: &[u8]) -> io::Result<()> {
    let mut file = [0u8; FILE];
    built(&mut file, given);
    section(
        rt,
        part(&file, 0, four(given, 32) as usize),
        byte(given, 45),
    )
}
