// Prints document 01's lines of the bench file on standard input.
#![tactic(auto)]

use input::complaint::output_failed;
use input::{BENCH, read_alone};
use printout::output::write_trace;

fn main(rt: HostRuntime) {
    let mut buf = [0u8; BENCH];
    let Some(file) = read_alone(rt, b"trace", b"bench file", &mut buf) else {
        return;
    };
    if let Err(error) = write_trace(&rt, file) {
        output_failed(rt, b"trace", error);
    }
}
