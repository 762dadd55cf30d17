// The rows of a script one by one: for a page all of them, for a trace or the sums as many as a buffer takes the lines of.
ghost use Rattle.std.specs.Prelude.{◌≡◌, ◌/◌, length};
ghost use Rattle.script.specs.Rig.{desk_of, holding};
ghost use Rattle.append.specs.Lent.{keeping};
ghost use Rattle.printout.specs.Rows.{standing, start, stepped, steps};

use crate::row::{Show, run_line};
use append::Sheet;
use common::refusal::Refusal;
use fields::part::part;
use script::rig::Rig;

// Where a script stands: the row to run next, from 0; the refusal of the last one, if it was refused.
#[derive(Clone, Copy)]
pub struct Stand {
    pub next: usize,
    pub refusal: Option<Refusal>,
}

// One row more, unless there is none, one was refused, or its line, of 105 bytes at most, might have no room.
fn step(rig: &mut Rig<'_>, s: Stand, script: &[u8], show: Show, out: &mut Sheet<'_>) -> Stand
    ensures same { rig.new ≡ holding rig.old (desk_of rig.new) }
    ensures kept { out.new ≡ keeping out.old out.new }
    ensures value { standing result rig.new out.new ≡ stepped rig.old.rom.now script.now show (standing s rig.old out.old) }
{
    let at = s.next;
    if script.len() / 8 <= at {
        return s;
    }
    if s.refusal.is_some() {
        return s;
    }
    if !out.has_room(105) {
        return s;
    }
    let row = part(script, at * 8, 8);
    let r = run_line(rig, row, at as u64 + 1, show, out);
    Stand {
        next: at + 1,
        refusal: r.refusal,
    }
}

// The rows from `first` on, what is shown of them at the start of the buffer. A step that cannot go on changes nothing, so as many steps
// as there are rows are enough; where nothing is shown they are all rows up to a refusal.
pub fn run_rows(
    rig: &mut Rig<'_>,
    script: &[u8],
    first: usize,
    show: Show,
    out: &mut Sheet<'_>,
) -> Stand
    ensures same { rig.new ≡ holding rig.old (desk_of rig.new) }
    ensures kept { out.new ≡ keeping out.old out.new }
    ensures value { standing result rig.new out.new ≡ steps rig.old.rom.now script.now show (length script.now / 8) (start (desk_of rig.old) first out.old.text.now) }
{
    let mut s = Stand {
        next: first,
        refusal: None,
    };
    out.at = 0;
    for i in 0..script.len() / 8 {
        s = step(rig, s, script, show, out);
    }
    s
}
