// The lines of a script on standard output.
use crate::steps::{Run, run_steps};
use std::io;

// All steps of a script. What the buffer has goes out after so many steps or when the next might have no room. A file has fewer than 2^13 rows
// and a row fewer than 2^16 steps, so 2^29 turns of at least one step are enough.
pub fn write_script(
    rt: &impl Print,
    w: &mut Run<'_>,
    origins: &mut [u32],
    script: &[u8],
    only: Option<u32>,
) -> io::Result<()> {
    for turn in 0..536870912u64 {
        run_steps(w, origins, script, only, 65536);
        rt.write_all(w.out.written())?;
        w.out.at = 0;
        if w.refusal.is_some() | (script.len() / 8 <= w.stand.next) {
            break;
        }
    }
    Ok(())
}
