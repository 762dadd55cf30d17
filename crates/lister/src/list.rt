// A bench file as text: settings, fill, ROM, rows.
#![tactic(auto, unfolding(append::specs::Sheet::puts, crate::specs::List::script_text, crate::specs::List::list_text, crate::specs::List::settings_text), using(append::proofs::Laws::texts))]

ghost use Rattle.std.specs.Prelude.{◌≡◌};
ghost use Rattle.append.specs.Lent.{putting};
ghost use Rattle.lister.specs.List.{script_text, list_text};

use crate::body::lines;
use crate::row::{number_line, write_row};
use append::Sheet;
use benchfile::section::section_look;
use fields::part::part;
use fields::word::two;

// The rows of a script, a line each.
fn rows(out: &mut Sheet<'_>, s: &[u8])
    ensures { out.new ≡ putting out.old (script_text s.now) }
{
    for i in 0..s.len() / 8 {
        write_row(out, part(s, i * 8, 8));
    }
}

// The text of a whole file.
pub fn list_file(out: &mut Sheet<'_>, file: &[u8])
    ensures { out.new ≡ putting out.old (list_text file.now) }
{
    number_line(out, b"bitcycles ", two(section_look(file, 0), 0));
    lines(out, b"fill", section_look(file, 1));
    lines(out, b"rom", section_look(file, 2));
    rows(out, section_look(file, 3));
}
