// The bytes that a text says, gathered in three lent buffers: settings and fill, ROM, script.
ghost use Rattle.std.specs.Prelude.{◌≡◌};
ghost use Rattle.append.specs.Lent.{putting};
ghost use Rattle.assembler.specs.Desk.{front_of, rom_of, script_of, state, stepped, runs, opened, gathered};

use append::Sheet;
use reader::draft::Draft;
use reader::kinds::Emit;
use reader::reader::{Reader, read, start};

// The reader and the places behind the last byte of each buffer.
#[derive(Clone, Copy)]
pub struct Desk {
    pub reader: Reader,
    pub front: usize,
    pub rom: usize,
    pub script: usize,
}

// Settings, and bytes of the fill.
#[tactic(auto, unfolding(crate::specs::Desk::front_of), using(append::proofs::Laws::puts_none))]
fn to_front(out: &mut Sheet<'_>, d: Draft)
    ensures { out.new ≡ putting out.old (front_of d) }
{
    match d.emit {
        Emit::FillByte => out.put(&[d.b1]),
        Emit::Settings => out.put(&[d.b1, d.b2]),
        _ => (),
    }
}

// Bytes of the ROM, or the lent file.
#[tactic(auto, unfolding(crate::specs::Desk::rom_of), using(append::proofs::Laws::puts_none))]
fn to_rom(out: &mut Sheet<'_>, d: Draft, file: &[u8])
    ensures { out.new ≡ putting out.old (rom_of file.now d) }
{
    match d.emit {
        Emit::RomFile => out.put(file),
        Emit::RomByte => out.put(&[d.b1]),
        _ => (),
    }
}

// Rows: the number of a kind is the row's first byte in a file.
#[tactic(auto, unfolding(crate::specs::Desk::script_of), using(append::proofs::Laws::puts_none))]
fn to_script(out: &mut Sheet<'_>, d: Draft)
    ensures { out.new ≡ putting out.old (script_of d) }
{
    if matches!(d.emit, Emit::Row) {
        out.put(&[d.kind as u8, d.b1, d.b2, d.b3, d.b4, 0, 0, 0]);
    }
}

// One character of the text.
#[tactic(auto, unfolding(crate::specs::Desk::stepped))]
fn step(k: Desk, front: &mut [u8], rom: &mut [u8], script: &mut [u8], file: &[u8], c: u8) -> Desk
    ensures { state result front.new rom.new script.new
        ≡ stepped file.now (state k front.old rom.old script.old) c }
{
    let reader = read(k.reader, c);
    let d = reader.draft;
    let mut a = Sheet {
        text: front,
        at: k.front,
    };
    let mut b = Sheet {
        text: rom,
        at: k.rom,
    };
    let mut s = Sheet {
        text: script,
        at: k.script,
    };
    to_front(&mut a, d);
    to_rom(&mut b, d, file);
    to_script(&mut s, d);
    Desk {
        reader,
        front: a.at,
        rom: b.at,
        script: s.at,
    }
}

fn run(
    k: Desk,
    front: &mut [u8],
    rom: &mut [u8],
    script: &mut [u8],
    file: &[u8],
    text: &[u8],
) -> Desk
    ensures { state result front.new rom.new script.new
        ≡ runs file.now (state k front.old rom.old script.old) text.now }
{
    let mut now = k;
    for c in text {
        now = step(now, front, rom, script, file, *c);
    }
    now
}

// The whole text, and a line feed behind it, so that its last line ends.
pub fn gather(front: &mut [u8], rom: &mut [u8], script: &mut [u8], file: &[u8], text: &[u8]) -> Desk
    ensures { state result front.new rom.new script.new
        ≡ gathered file.now (opened front.old rom.old script.old) text.now }
{
    let k = Desk {
        reader: start(),
        front: 0,
        rom: 0,
        script: 0,
    };
    let all = run(k, front, rom, script, file, text);
    step(all, front, rom, script, file, b'\n')
}
