// What each channel moved in the bench files that the arguments name: a line for each file, and the table of the folder.
#![tactic(auto)]

mod count;
mod folder;
mod lines;
mod progress;

use folder::{End, Folded, count_files};
use input::argument_count;
use input::complaint::{file_refused, output_failed};
use lines::{write_files, write_table};
use std::io;

fn write(rt: HostRuntime, c: Folded, ends: &[End; 257]) -> io::Result<()> {
    write_files(rt, c.folder.files, ends)?;
    write_table(rt, c.folder)?;
    if let Some(r) = c.refused {
        file_refused(rt, b"figures", r.file, r.refusal.number());
    }
    Ok(())
}

// Nothing is written before every file is counted, so that a file that cannot be read leaves standard output empty.
fn main(rt: HostRuntime) {
    let mut ends: [End; 257] = [Ok(()); 257];
    if let Some(c) = count_files(rt, argument_count(rt), &mut ends) {
        if let Err(error) = write(rt, c, &ends) {
            output_failed(rt, b"figures", error);
        }
    }
}
