// The text of a bench file to the file.
ghost use Rattle.std.specs.Prelude.{◌≡◌};
ghost use Rattle.assembler.specs.Assemble.{ready_of, placed, checked, finished, assembled};

use crate::bind::bind;
use crate::desk::gather;
use append::Sheet;
use benchfile::check::file_check;
use fields::part::part;
use reader::draft::{Draft, has_failed};
use reader::kinds::Phase;

// A text that did not fail and has settings and a fill.
#[tactic(auto, unfolding(crate::specs::Assemble::ready_of))]
pub fn ready(d: Draft) -> bool
    ensures { result ≡ ready_of d }
{
    !has_failed(d) && Phase::Fill <= d.phase
}

// The length of a bench file; none for bytes that are no file.
#[tactic(auto, unfolding(crate::specs::Assemble::checked), using(crate::proofs::Placed::files))]
fn check(out: &[u8], n: usize) -> Option<usize>
    ensures { result ≡ placed (checked out.now n) }
{
    file_check(part(out, 0, n)).ok()?;
    Some(n)
}

// The bodies bound, and checked.
#[tactic(auto, unfolding(crate::specs::Assemble::finished))]
fn finish(out: &mut [u8], front: &[u8], rom: &[u8], script: &[u8]) -> Option<usize>
    ensures text { out.new ≡ (finished out.old front.now rom.now script.now).text }
    ensures file { result ≡ placed (finished out.old front.now rom.now script.now).at }
{
    let mut file = Sheet { text: out, at: 0 };
    bind(&mut file, front, rom, script);
    let n = file.at;
    check(out, n)
}

// The file's length, with the file at the start of `out`; none where the text says no file. `file` is the ROM file.
pub fn assemble_text(out: &mut [u8], text: &[u8], file: &[u8]) -> Option<usize>
    ensures text { out.new ≡ (assembled out.old text.now file.now).text }
    ensures file { result ≡ placed (assembled out.old text.now file.now).at }
{
    let mut front = [0u8; 4099];
    let mut rom = [0u8; 65537];
    let mut script = [0u8; 65537];
    let k = gather(&mut front, &mut rom, &mut script, file, text);
    if !ready(k.reader.draft) {
        return None;
    }
    let front = part(&front, 0, k.front);
    let rom = part(&rom, 0, k.rom);
    let script = part(&script, 0, k.script);
    finish(out, front, rom, script)
}
