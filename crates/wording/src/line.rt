// One line of the trace: row, kind, refusal or 0, A and B. One line of the sums: row and sum.
#![tactic(auto, unfolding(append::specs::Sheet::puts, crate::specs::Line::line_text, crate::specs::Line::sum_text), using(append::proofs::Laws::texts))]

ghost use Rattle.std.specs.Prelude.{[], ◌∷◌, ◌++◌, ◌≡◌};
ghost use Rattle.append.specs.Lent.{putting};
ghost use Rattle.append.specs.Number.{decimal as Number·decimal};
ghost use Rattle.wording.specs.Line.{line_text, sum_text};

use append::Sheet;

// A number, and the byte that stands after it.
fn ended(out: &mut Sheet<'_>, n: u64, after: u8)
    ensures { out.new ≡ putting out.old (Number·decimal n ++ after ∷ []) }
{
    out.decimal(n);
    out.push(after);
}

// A line behind the text; no line is longer than 105 bytes.
pub fn append_line(out: &mut Sheet<'_>, row: u64, kind: u8, number: u8, a: u32, b: u32)
    ensures { out.new ≡ putting out.old (line_text row kind number a b) }
{
    ended(out, row, b' ');
    ended(out, kind as u64, b' ');
    ended(out, number as u64, b' ');
    ended(out, a as u64, b' ');
    ended(out, b as u64, b'\n');
}

// The sum of work RAM after a row.
pub fn append_sum(out: &mut Sheet<'_>, row: u64, sum: u32)
    ensures { out.new ≡ putting out.old (sum_text row sum) }
{
    ended(out, row, b' ');
    ended(out, sum as u64, b'\n');
}
