// Prints the sum of work RAM after each row of the bench file on standard input.
#![tactic(auto)]

use input::complaint::{output_failed, refused};
use input::{BENCH, read_alone};
use printout::output::write_sums;
use std::io;

fn show(rt: HostRuntime, file: &[u8]) -> io::Result<()> {
    let s = write_sums(&rt, file)?;
    if let Some(refusal) = s.refusal {
        refused(rt, b"sums", s.next, refusal.number());
    }
    Ok(())
}

fn main(rt: HostRuntime) {
    let mut buf = [0u8; BENCH];
    let Some(file) = read_alone(rt, b"sums", b"bench file", &mut buf) else {
        return;
    };
    if let Err(error) = show(rt, file) {
        output_failed(rt, b"sums", error);
    }
}
