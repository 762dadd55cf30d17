// Listed calls as they come on standard input.
use crate::answer::{LINE, Told, answer};
use crate::form::{HEAD, listed_of};
use layout::ENTRY_SIZE;
use std::io::Read;

// The next call, made and answered in `line`; none where no more comes whole.
pub fn next<'a, R: Read>(from: &mut R, rom: &[u8], line: &'a mut [u8; LINE]) -> Option<Told<'a>> {
    let mut head = [0u8; HEAD];
    from.read_exact(&mut head).ok()?;
    let mut newest = [0u8; ENTRY_SIZE];
    if listed_of(&head).call.newest().is_some() {
        // What does not come stays 0.
        let _ = from.read_exact(&mut newest);
    }
    Some(answer(&head, &newest, rom, line))
}
