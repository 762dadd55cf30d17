// The lines of a cycle: its accesses in order, then the NMI edge.
#![tactic(auto, unfolding(append::specs::Sheet::puts, crate::specs::Cycle::log_text, crate::specs::Cycle::edge_text, crate::specs::Cycle::cycle_text), using(append::proofs::Laws::texts))]

ghost use Rattle.std.specs.Prelude.{min, ◌≡◌};
ghost use Rattle.append.specs.Lent.{putting};
ghost use Rattle.touch.specs.Reach.{spot_number};
ghost use Rattle.listing.specs.{Line.line_seen, Cycle.log_text, Cycle.edge_text, Cycle.cycle_text};

use crate::line::{Line, head, put_access};
use append::Sheet;
use bus::access::Log;
use registers::wm_address::WmAddress;
use state::Machine;
use touch::reach::reached;
use touch::who::{starts_at_zero, who_of};

// The accesses in order, at most eleven. WMADD goes along with them.
#[tactic(auto, unfolding(append::specs::Sheet::puts, crate::specs::Cycle::log_text), using(crate::proofs::Loop::accesses_next, crate::proofs::Loop::accesses_none))]
fn put_log(out: &mut Sheet<'_>, l: Line, w: WmAddress, zero: bool, log: Log)
    ensures { out.new ≡ putting out.old (log_text (line_seen l) w zero log) }
{
    let n = log.count.min(11) as usize;
    let mut wm = w;
    let mut first = zero;
    for i in 0..n {
        let a = log.items[i];
        let r = reached(l.who, wm, a);
        put_access(out, l, a, r, first);
        wm = r.after;
        first = false;
    }
}

fn put_edge(out: &mut Sheet<'_>, row: u64, clock: u64, only: Option<u32>, edge: bool)
    ensures { out.new ≡ putting out.old (edge_text row clock (spot_number only) edge) }
{
    if edge && only.is_none() {
        head(out, row, clock);
        out.put(b"NMI     edge\n");
    }
}

// `before` is the machine before the cycle: it names who has the bus, and where WMADD stands.
pub fn put_cycle(
    out: &mut Sheet<'_>,
    row: u64,
    only: Option<u32>,
    before: Machine,
    log: Log,
    edge: bool,
)
    ensures { out.new ≡ putting out.old (cycle_text row (spot_number only) before log edge) }
{
    let clock = before.board.clock;
    let l = Line {
        row,
        clock,
        only,
        who: who_of(before.dma),
    };
    put_log(out, l, before.io.wmadd, starts_at_zero(before), log);
    put_edge(out, row, clock, only, edge);
}
