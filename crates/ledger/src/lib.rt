// The text of a folder's figures: a line for each file, and a table with two lines for each figure.
#![tactic(auto)]

mod figure;
mod name;

ghost use Rattle.std.specs.Prelude.{◌≡◌};
ghost use Rattle.append.specs.Lent.{putting};
ghost use Rattle.ledger.specs.Table.{file_text, table_text};

use append::Sheet;
use figure::{put_figure, spaced};
use totals::folder::Folder;

// `number` is the refusal that ended the file's count, or 0; `row` is where.
#[tactic(auto, unfolding(append::specs::Sheet::puts, crate::specs::Table::file_text), using(append::proofs::Laws::texts))]
pub fn put_file(out: &mut Sheet<'_>, n: u64, number: u8, row: u64, name: &[u8])
    ensures { out.new ≡ putting out.old (file_text n number row name.now) }
{
    out.put(b"file ");
    spaced(out, n);
    spaced(out, number as u64);
    spaced(out, row);
    out.put(name);
    out.push(b'\n');
}

// Of each figure the line of all operations, then that of the survivors.
#[tactic(auto, unfolding(append::specs::Sheet::puts, crate::specs::Table::both_text, crate::specs::Table::table_text), using(append::proofs::Laws::texts))]
pub fn put_table(out: &mut Sheet<'_>, f: Folder)
    ensures { out.new ≡ putting out.old (table_text f) }
{
    for i in 0..29 {
        put_figure(out, i, b" all ", f.all, f.files);
        put_figure(out, i, b" survivors ", f.alive, f.files);
    }
}
