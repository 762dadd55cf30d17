// What is written: the line of each file, and the table.
use crate::folder::End;
use append::Sheet;
use fields::part::part;
use input::argument;
use ledger::{put_file, put_table};
use std::io;
use totals::folder::Folder;

// A file that was read has a name of at most 4,095 bytes.
fn write_file(rt: HostRuntime, i: usize, end: End) -> io::Result<()> {
    let mut name = [0u8; 4096];
    let mut out = Sheet {
        text: &mut [0u8; 4224],
        at: 0,
    };
    let n = argument(rt, i, &mut name);
    let name = part(&name, 0, n);
    let (number, row) = end.map_or_else(|r| (r.refusal.number(), r.row as u64), |_| (0, 0));
    put_file(&mut out, i as u64, number, row, name);
    rt.write_all(out.written())
}

// Files count from 1.
pub fn write_files(rt: HostRuntime, files: u64, ends: &[End; 257]) -> io::Result<()> {
    for (i, end) in ends.iter().enumerate().skip(1) {
        if i as u64 <= files {
            write_file(rt, i, *end)?;
        }
    }
    Ok(())
}

// No table is longer (`table-most` in crates/ledger/proofs/Lengths.antt).
pub fn write_table(rt: HostRuntime, folder: Folder) -> io::Result<()> {
    let mut out = Sheet {
        text: &mut [0u8; 8192],
        at: 0,
    };
    put_table(&mut out, folder);
    rt.write_all(out.written())
}
