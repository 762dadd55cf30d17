// Carries out the listed calls on standard input and prints what each answers, a line a call (docs/CALLS.md).
#![tactic(auto)]

use input::complaint::unwritten;
use listed::answer::LINE;
use listed::lay::{ROM, lay_rom};
use listed::next::next;
use std::io;

// Each line in one write. A loop has to end, and nothing says that a list does: it counts its calls up to a number that none reaches.
fn all(rt: HostRuntime, rom: &[u8; ROM]) -> io::Result<()> {
    for _ in 0..u64::MAX {
        let mut line = [0u8; LINE];
        let Some(told) = next(&mut rt.stdin(), rom, &mut line) else {
            return Ok(());
        };
        rt.write_all(told.line)?;
    }
    Ok(())
}

fn main(rt: HostRuntime) {
    let mut rom = [0u8; ROM];
    lay_rom(&mut rom);
    if let Err(error) = all(rt, &rom) {
        unwritten(rt, b"standard output", error);
    }
}
