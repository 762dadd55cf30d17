// Replays the list of bench files on standard input: each stands behind its length in 4 bytes, and gets a line `file N` before its own.
#![tactic(auto)]

use append::Sheet;
use fields::word::four;
use input::complaint::{fail, say, unwritten};
use input::{BENCH, read_all};
use printout::output::write_trace;
use std::io;

// Why the list is not replayed to its end.
enum Stop {
    CutShort,
    Unread(io::Error),
    Unwritten(io::Error),
}

fn complain(rt: HostRuntime, stop: Stop) {
    match stop {
        Stop::CutShort => say(rt, b"the list is cut short\n"),
        Stop::Unread(error) => fail(rt, b"standard input", error),
        Stop::Unwritten(error) => unwritten(rt, b"standard output", error),
    }
}

// The next file of the list, which has to come whole.
fn read_file(rt: HostRuntime, file: &mut [u8], size: usize) -> Result<&[u8], Stop> {
    if file.len() < size {
        return Err(Stop::CutShort);
    }
    let n = read_all(&mut rt.stdin(), &mut file[..size]).map_err(Stop::Unread)?;
    if n < size {
        return Err(Stop::CutShort);
    }
    Ok(&file[..size])
}

// Its header and its lines.
fn write_file(rt: HostRuntime, number: u64, file: &[u8]) -> io::Result<()> {
    let mut head = Sheet {
        text: &mut [0u8; 32],
        at: 0,
    };
    head.put(b"file ");
    head.decimal(number);
    head.push(b'\n');
    rt.write_all(head.written())?;
    write_trace(&rt, file)
}

// One file of the list; false at its end.
fn replay_one(rt: HostRuntime, number: u64) -> Result<bool, Stop> {
    let mut size = [0u8; 4];
    let n = read_all(&mut rt.stdin(), &mut size).map_err(Stop::Unread)?;
    if n == 0 {
        return Ok(false);
    }
    if n < 4 {
        return Err(Stop::CutShort);
    }
    let mut buf = [0u8; BENCH];
    let file = read_file(rt, &mut buf, four(&size, 0) as usize)?;
    write_file(rt, number, file).map_err(Stop::Unwritten)?;
    Ok(true)
}

// The files are counted up to a number that none reaches: a loop has to end.
fn replay(rt: HostRuntime) -> Result<(), Stop> {
    for number in 1..u64::MAX {
        if !replay_one(rt, number)? {
            return Ok(());
        }
    }
    Ok(())
}

fn main(rt: HostRuntime) {
    if let Err(stop) = replay(rt) {
        complain(rt, stop);
    }
}
