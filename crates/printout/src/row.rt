// A script row run on a bench, with what is shown of it.
ghost use Rattle.std.specs.Prelude.{◌≡◌};
ghost use Rattle.script.specs.Rig.{desk_of, holding};
ghost use Rattle.append.specs.Lent.{shown as text_in, keeping, putting};
ghost use Rattle.printout.specs.Row.{shown_text, shown, row_shown};

use append::Sheet;
use benchfile::row::row_of;
use common::refusal::number_of;
use fields::word::byte;
use script::repeat::Ran;
use script::rig::Rig;
use script::row::run_row;
use wording::line::{append_line, append_sum};

// What is shown of a row. It is no step that a caller hands down: `part-text` and `goes_on` (proofs/Whole.antt) speak of all three cases.
#[derive(Clone, Copy)]
pub enum Show {
    Nothing,
    Line,
    Sum,
}

#[tactic(auto, unfolding(crate::specs::Row::shown_text), using(append::proofs::Laws::puts_none))]
fn put_shown(
    out: &mut Sheet<'_>,
    show: Show,
    row: u64,
    kind: u8,
    number: u8,
    a: u32,
    b: u32,
    sum: u32,
)
    ensures { out.new ≡ putting out.old (shown_text show row kind number a b sum) }
{
    match show {
        Show::Nothing => (),
        Show::Line => append_line(out, row, kind, number, a, b),
        Show::Sum => append_sum(out, row, sum),
    }
}

// Runs the row of these 8 bytes, the `number`th of its script.
#[tactic(auto, unfolding(crate::specs::Row::row_shown))]
pub fn run_line(rig: &mut Rig<'_>, row: &[u8], number: u64, show: Show, out: &mut Sheet<'_>) -> Ran
    ensures same { rig.new ≡ holding rig.old (desk_of rig.new) }
    ensures kept { out.new ≡ keeping out.old out.new }
    ensures value { shown result rig.new out.new ≡ row_shown rig.old.rom.now row.now number show (desk_of rig.old) (text_in out.old) }
{
    let kind = byte(row, 0);
    let ran = run_row(rig, row_of(row));
    let refused = number_of(ran.refusal);
    put_shown(
        out,
        show,
        number,
        kind,
        refused,
        ran.a,
        ran.b,
        rig.bench.sum,
    );
    ran
}
