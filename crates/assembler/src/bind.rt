// A bench file from its bodies: contents, settings and fill, ROM, script.
#![tactic(auto, unfolding(append::specs::Sheet::puts, crate::specs::Bind::head_of, crate::specs::Bind::bound, benchfile::specs::Build::contents_of), using(append::proofs::Laws::texts))]

ghost use Rattle.std.specs.Prelude.{◌≡◌};
ghost use Rattle.append.specs.Lent.{putting};
ghost use Rattle.benchfile.specs.Build.{contents_of};
ghost use Rattle.assembler.specs.Bind.{size_of, fill_size, head_of, bound};

use append::Sheet;

// A length as a file can hold it; a longer body makes no file.
#[tactic(auto, unfolding(crate::specs::Bind::size_of))]
fn size(n: usize) -> u16
    ensures { result ≡ size_of n }
{
    n.min(65535) as u16
}

// The fill stands behind the 2 bytes of the settings.
#[tactic(auto, unfolding(crate::specs::Bind::fill_size, crate::specs::Bind::size_of))]
fn fill_size(n: usize) -> u16
    ensures { result ≡ fill_size n }
{
    size(n.saturating_sub(2))
}

// A row of the contents.
fn head(out: &mut Sheet<'_>, start: u32, length: u32)
    ensures { out.new ≡ putting out.old (head_of start length) }
{
    out.put(&start.to_le_bytes());
    out.put(&length.to_le_bytes());
}

// The contents, with settings of 2 bytes.
fn contents(out: &mut Sheet<'_>, fill: u16, rom: u16, script: u16)
    ensures { out.new ≡ putting out.old (contents_of 2 fill rom script) }
{
    head(out, 32, 2);
    head(out, 34, fill as u32);
    head(out, 34 + fill as u32, rom as u32);
    head(out, 34 + fill as u32 + rom as u32, script as u32);
}

// `front` is settings and fill.
pub fn bind(out: &mut Sheet<'_>, front: &[u8], rom: &[u8], script: &[u8])
    ensures { out.new ≡ putting out.old (bound front.now rom.now script.now) }
{
    contents(
        out,
        fill_size(front.len()),
        size(rom.len()),
        size(script.len()),
    );
    out.put(front);
    out.put(rom);
    out.put(script);
}
