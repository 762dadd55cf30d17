// Section look: the settings, RAM fill, ROM or script of a bench file, as a part of the file's own bytes.
ghost use Rattle.std.specs.Prelude.{◌≡◌};
ghost use Rattle.benchfile.specs.File.{section_number, section_of};
ghost use Rattle.common.specs.Refusal.{result_number, result_bytes};

use crate::check::file_check;
use crate::contents::body;
use common::refusal::Refusal;

// 11 for a section over 3 or a broken file.
pub fn section_part(file: &[u8], section: u8) -> Result<&[u8], Refusal>
    ensures number { result_number result ≡ section_number file.now section }
    ensures bytes { result_bytes result ≡ section_of file.now section }
{
    if section > 3 {
        return Err(Refusal::BenchFile);
    }
    file_check(file)?;
    Ok(body(file, section))
}

// The same number, else 0.
pub fn section_number(file: &[u8], section: u8) -> u8
    ensures { result ≡ section_number file.now section }
{
    match section_part(file, section) {
        Ok(_) => 0,
        Err(refusal) => refusal.number(),
    }
}

// Empty where the number is not 0.
pub fn section_look(file: &[u8], section: u8) -> &[u8]
    ensures { result.now ≡ section_of file.now section }
{
    section_part(file, section).unwrap_or(&[])
}
