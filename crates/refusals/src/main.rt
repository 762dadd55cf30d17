// Makes the tries on standard input (docs/REFUSALS.md) and says of each the number got, and whether the machine and every byte lent, or the
// figures, stayed as they were. A try is its kind and the length of its words; the words, which begin its line; then what is given.
#![tactic(auto)]

mod figures;
mod file;
mod look;
mod say;

use crate::figures::{add_tried, count_tried};
use crate::file::{file_tried, section_tried};
use crate::look::{fresh_tried, page_tried};
use crate::say::{say, say_end};
use fields::part::part;
use listed::answer::LINE;
use listed::lay::{ROM, lay_rom};
use listed::next::next;
use std::io;
use std::io::Read;

// How many bytes are given to a try that is no listed call.
const GIVEN: usize = 50;

// A call that does not come whole is none, and leaves all as it was.
fn call_tried(rt: HostRuntime, rom: &[u8]) -> io::Result<()> {
    let mut line = [0u8; LINE];
    match next(&mut rt.stdin(), rom, &mut line) {
        Some(told) => say_end(rt, told.refusal, told.still),
        None => say_end(rt, None, true),
    }
}

// What does not come stays 0.
fn given(rt: HostRuntime) -> [u8; GIVEN] {
    let mut given = [0u8; GIVEN];
    let _ = rt.stdin().read_exact(&mut given);
    given
}

// One try, behind its words, of which there are fewer than 256.
fn try_one(rt: HostRuntime, rom: &[u8], kind: u8, length: u8) -> io::Result<()> {
    let mut words = [0u8; 256];
    let _ = rt.stdin().read_exact(&mut words[..length as usize]);
    say(rt, part(&words, 0, length as usize))?;
    match kind {
        0 => call_tried(rt, rom),
        1 => fresh_tried(rt, &given(rt)),
        2 => page_tried(rt, &given(rt)),
        3 => file_tried(rt, &given(rt)),
        4 => section_tried(rt, &given(rt)),
        5 => count_tried(rt, &given(rt)),
        _ => add_tried(rt, &given(rt)),
    }
}

// The tries are counted up to a number that none reaches: a loop has to end.
fn all(rt: HostRuntime, rom: &[u8; ROM]) -> io::Result<()> {
    for _ in 0..u64::MAX {
        let mut start = [0u8; 2];
        if rt.stdin().read_exact(&mut start).is_err() {
            return Ok(());
        }
        let [kind, length] = start;
        try_one(rt, rom, kind, length)?;
    }
    Ok(())
}

// Where standard output takes no more, there is nothing more to say.
fn main(rt: HostRuntime) {
    let mut rom = [0u8; ROM];
    lay_rom(&mut rom);
    let _ = all(rt, &rom);
}
