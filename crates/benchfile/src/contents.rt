// The contents of a bench file: a row of start and length for each section, 0 settings, 1 RAM fill, 2 ROM, 3 script.
ghost use Rattle.std.specs.Prelude.{◌≡◌};
ghost use Rattle.benchfile.specs.File.{start_of, size_of, end_of, body_of};

use fields::part::part;
use fields::word::four;

#[tactic(auto, unfolding(crate::specs::File::start_of))]
pub fn start(file: &[u8], section: u8) -> u32
    ensures { result ≡ start_of file.now section }
{
    four(file, section as usize * 8)
}

#[tactic(auto, unfolding(crate::specs::File::size_of))]
pub fn size(file: &[u8], section: u8) -> u32
    ensures { result ≡ size_of file.now section }
{
    four(file, section as usize * 8 + 4)
}

// Start and length are numbers of 32 bits: their sum is wider.
pub fn end(file: &[u8], section: u8) -> u64
    ensures { result ≡ end_of file.now section }
{
    start(file, section) as u64 + size(file, section) as u64
}

// The part of the file that a row of the contents names.
#[tactic(auto, unfolding(crate::specs::File::body_of))]
pub fn body(file: &[u8], section: u8) -> &[u8]
    ensures { result.now ≡ body_of file.now section }
{
    part(
        file,
        start(file, section) as usize,
        size(file, section) as usize,
    )
}
