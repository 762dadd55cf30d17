// One line of the table: a figure in one column.
#![tactic(auto, unfolding(append::specs::Sheet::puts, crate::specs::Figure::spaced_text, crate::specs::Figure::mean_text, crate::specs::Figure::figure_text), using(append::proofs::Laws::texts))]

ghost use Rattle.std.specs.Prelude.{◌<◌, ◌≡◌};
ghost use Rattle.append.specs.Lent.{putting};
ghost use Rattle.ledger.specs.Figure.{spaced_text, mean_text, figure_text};

use crate::name::put_name;
use append::Sheet;
use totals::Column;
use totals::mean::mean;

pub fn spaced(out: &mut Sheet<'_>, n: u64)
    ensures { out.new ≡ putting out.old (spaced_text n) }
{
    out.decimal(n);
    out.push(b' ');
}

// `65537/2`
fn put_mean(out: &mut Sheet<'_>, sum: u64, files: u64)
    ensures { out.new ≡ putting out.old (mean_text sum files) }
{
    let m = mean(sum, files);
    out.decimal(m.over);
    out.push(b'/');
    out.decimal(m.under);
}

// `word` names the column, with a space before and behind it.
pub fn put_figure(out: &mut Sheet<'_>, i: usize, word: &[u8], c: Column, files: u64)
    requires { i < 29 }
    ensures { out.new ≡ putting out.old (figure_text i word.now c files) }
{
    put_name(out, i);
    out.put(word);
    spaced(out, c.sum[i]);
    spaced(out, c.most[i]);
    spaced(out, c.file[i]);
    put_mean(out, c.sum[i], files);
    out.push(b'\n');
}
