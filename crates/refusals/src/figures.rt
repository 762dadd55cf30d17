// Count and add, tried (numbers 13 and 14). A line has every figure that changed, with what it is now.
use crate::say::{say, say_end, say_named};
use fields::word::{byte, eight};
use std::io;
use tally::count::count;
use tally::share::Share;
use totals::folder::{Folder, add};
use totals::{Column, Figures};

// The figures with another at a place.
fn laid(figures: [u64; 29], place: u8, n: u64) -> [u64; 29] {
    let mut out = figures;
    if let Some(figure) = out.get_mut(place as usize) {
        *figure = n;
    }
    out
}

// A figure that changed, with what it is now.
fn tell(rt: HostRuntime, whose: &[u8], what: &[u8], place: usize, now: u64) -> io::Result<()> {
    say(rt, whose)?;
    say_named(rt, what, place as u64)?;
    say_named(rt, b" is ", now)
}

// Those that changed; answers whether none did, as most tries have it.
fn tell_all(
    rt: HostRuntime,
    whose: &[u8],
    what: &[u8],
    before: &[u64; 29],
    after: &[u64; 29],
) -> io::Result<bool> {
    if before == after {
        return Ok(true);
    }
    for (place, old) in before.iter().enumerate() {
        if *old != after[place] {
            tell(rt, whose, what, place, after[place])?;
        }
    }
    Ok(false)
}

fn share(given: &[u8]) -> Share {
    Share {
        channel: byte(given, 41) as u64,
        general: eight(given, 8),
        units: eight(given, 16),
        table: eight(given, 24),
        state: byte(given, 42) as u64,
        held: eight(given, 32),
    }
}

// Given are one total; the share's general bytes, units, table bytes and held; the total's place, and the share's channel and state. Every
// other total is 7.
pub fn count_tried(rt: HostRuntime, given: &[u8]) -> io::Result<()> {
    let before = laid([7u64; 29], byte(given, 40), eight(given, 0));
    let mut after = before;
    let counted = count(&mut after, share(given));
    let same = tell_all(rt, b", ", b"total ", &before, &after)?;
    say_end(rt, counted.err(), same)
}

// The column of files of which the first has one figure, and the others are at 0.
fn column(place: u8, figure: u64) -> Column {
    let figures = laid([0u64; 29], place, figure);
    Column {
        sum: figures,
        most: figures,
        file: [1u64; 29],
    }
}

fn tell_column(rt: HostRuntime, whose: &[u8], before: &Column, after: &Column) -> io::Result<bool> {
    let sum = tell_all(rt, whose, b"total ", &before.sum, &after.sum)?;
    let most = tell_all(rt, whose, b"largest ", &before.most, &after.most)?;
    let file = tell_all(rt, whose, b"file ", &before.file, &after.file)?;
    Ok(sum & most & file)
}

fn added(rt: HostRuntime, f: Folder, all: Figures, alive: Figures) -> io::Result<()> {
    let made = add(f, all, alive);
    let after = made.unwrap_or(f);
    if f.files != after.files {
        say_named(rt, b", files ", after.files)?;
    }
    let both = tell_column(rt, b", all ", &f.all, &after.all)?;
    let kept = tell_column(rt, b", survivors ", &f.alive, &after.alive)?;
    say_end(rt, made.err(), both & kept & (f.files == after.files))
}

// Given are how many files there are, a figure of the first of them, the same figure of the file added; the column, 1 for the survivors;
// and the figure's place. All other figures are 0.
pub fn add_tried(rt: HostRuntime, given: &[u8]) -> io::Result<()> {
    let files = eight(given, 0);
    let place = byte(given, 25);
    let old = column(place, eight(given, 8));
    let empty = column(place, 0);
    let new = Figures {
        counts: laid([0u64; 29], place, eight(given, 16)),
    };
    let zeros = Figures { counts: [0u64; 29] };
    if byte(given, 24) == 0 {
        let f = Folder {
            files,
            all: old,
            alive: empty,
        };
        return added(rt, f, new, zeros);
    }
    let f = Folder {
        files,
        all: empty,
        alive: old,
    };
    added(rt, f, zeros, new)
}
