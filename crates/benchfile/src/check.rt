// File check: whether a lent file is a bench file, down to the form of its last row.
ghost use Rattle.std.specs.Prelude.{◌≡◌};
ghost use Rattle.common.specs.Refusal.{result_number};
ghost use Rattle.benchfile.specs.File.{adjoin, chained, sized, script_formed, sound, file_check};

use crate::contents::{body, end, size, start};
use crate::row::formed;
use common::refusal::Refusal;

// One section starts where another ends.
fn adjoins(file: &[u8], section: u8, next: u8) -> bool
    ensures { result ≡ adjoin file.now section next }
{
    end(file, section) == start(file, next) as u64
}

// The bodies follow from 32 without gap, in order, to the end.
#[tactic(auto, unfolding(crate::specs::File::chained))]
fn in_order(file: &[u8]) -> bool
    ensures { result ≡ chained file.now }
{
    start(file, 0) == 32
        && adjoins(file, 0, 1)
        && adjoins(file, 1, 2)
        && adjoins(file, 2, 3)
        && end(file, 3) == file.len() as u64
}

// Settings are 2 bytes, the fill 1 to 4,096.
#[tactic(auto, unfolding(crate::specs::File::sized))]
fn right_sizes(file: &[u8]) -> bool
    ensures { result ≡ sized file.now }
{
    size(file, 0) == 2 && (1..=4096).contains(&size(file, 1))
}

// Whole rows, each well formed: a shorter last one is not.
fn rows_formed(script: &[u8]) -> bool
    ensures { result ≡ script_formed script.now }
{
    script.chunks(8).all(formed)
}

#[tactic(auto, unfolding(crate::specs::File::sound))]
fn is_sound(file: &[u8]) -> bool
    ensures { result ≡ sound file.now }
{
    (32..=65536).contains(&file.len())
        && in_order(file)
        && right_sizes(file)
        && rows_formed(body(file, 3))
}

// 11 where the file is no bench file.
pub fn file_check(file: &[u8]) -> Result<(), Refusal>
    ensures { result_number result ≡ file_check file.now }
{
    if is_sound(file) {
        Ok(())
    } else {
        Err(Refusal::BenchFile)
    }
}
