// A whole text: what it leaves, where it fails, where a file name starts.
ghost use Rattle.std.specs.Prelude.{◌≡◌};
ghost use Rattle.reader.specs.Reader.{start_of, reads, fault_of, name_at};

use crate::draft::has_failed;
use crate::reader::{Reader, read, start};
use crate::word::in_name;

#[tactic(auto, unfolding(crate::specs::Reader::reads))]
pub fn read_all(text: &[u8]) -> Reader
    ensures { result ≡ reads start_of text.now }
{
    text.iter().fold(start(), |r, c| read(r, *c))
}

// The place of the character at which the text fails.
pub fn fault(text: &[u8]) -> Option<usize>
    ensures { result ≡ fault_of start_of text.now }
{
    let mut r = start();
    for (i, c) in text.iter().enumerate() {
        r = read(r, *c);
        if has_failed(r.draft) {
            return Some(i);
        }
    }
    None
}

// The place behind `rom file`, where a name starts.
pub fn name_at(text: &[u8]) -> Option<usize>
    ensures { result ≡ name_at start_of text.now }
{
    let mut r = start();
    for (i, c) in text.iter().enumerate() {
        if in_name(r.word) {
            return Some(i);
        }
        r = read(r, *c);
    }
    None
}
