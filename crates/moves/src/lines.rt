// The lines of one call (docs/MOVES.md). `row` is the row's number, from 1; `before` the machine before the call.
#![tactic(auto, unfolding(append::specs::Sheet::puts, crate::specs::Text::cpu_text, crate::specs::Text::returned_text, crate::specs::Text::step_text), using(append::proofs::Laws::texts))]

ghost use Rattle.std.specs.Prelude.{◌≡◌};
ghost use Rattle.append.specs.Lent.{putting};
ghost use Rattle.touch.specs.Reach.{spot_number};
ghost use Rattle.walk.specs.Call.{answered};
ghost use Rattle.moves.specs.Text.{cpu_text, returned_text, step_text};

use append::Sheet;
use benchfile::row::Row;
use bus::access::Access;
use common::refusal::number_of;
use listing::cycle::put_cycle;
use listing::event::{put_back, put_end, put_refused};
use listing::line::{Line, put_access};
use state::Machine;
use touch::reach::reached;
use touch::who::Who;
use walk::call::Answer;
use walk::stand::Stand;

// The access of a read or a write row, or its refusal.
#[tactic(auto, unfolding(crate::specs::Text::cpu_text), using(std::proofs::lemmas::Bool::Decides::nat_tests))]
fn put_cpu(
    out: &mut Sheet<'_>,
    row: u64,
    only: Option<u32>,
    before: Machine,
    access: Access,
    number: u8,
)
    ensures { out.new ≡ putting out.old (cpu_text row (spot_number only) before access number) }
{
    let clock = before.board.clock;
    if number != 0 {
        put_refused(out, row, clock, number);
    } else {
        let l = Line {
            row,
            clock,
            only,
            who: Who::Cpu,
        };
        let r = reached(Who::Cpu, before.io.wmadd, access);
        put_access(out, l, access, r, false);
    }
}

// The end of a row of back steps: its last step, or a refused one. Of its `count` steps `done` were accepted.
fn put_returned(
    out: &mut Sheet<'_>,
    row: u64,
    clock: u64,
    number: u8,
    done: u16,
    count: u16,
    origin: u32,
)
    ensures { out.new ≡ putting out.old (returned_text row clock number done count origin) }
{
    if !((number == 0) & (done < count)) {
        put_back(out, row, clock, done as u32, count, origin);
        put_refused(out, row, clock, number);
    }
}

// By the row's kind. `stand` counts the call, `clock` is the clock after it, and `origin` that of the slot it left as the next one.
pub fn put_step(
    out: &mut Sheet<'_>,
    row: u64,
    only: Option<u32>,
    before: Machine,
    says: Row,
    answer: Answer,
    stand: Stand,
    clock: u64,
    origin: u32,
)
    ensures { out.new ≡ putting out.old (step_text row (spot_number only) before says (answered answer) stand clock origin) }
{
    let number = number_of(answer.refusal);
    match says {
        Row::Cycles { count, .. } => {
            put_cycle(out, row, only, before, answer.log, answer.edge);
            put_end(out, row, clock, only, number, stand.held, stand.done, count);
        }
        Row::Read { bank, addr } => {
            let access = Access {
                write: false,
                bank,
                addr,
                byte: (answer.byte % 256) as u8,
            };
            put_cpu(out, row, only, before, access, number);
        }
        Row::Write { bank, addr, byte } => {
            let access = Access {
                write: true,
                bank,
                addr,
                byte,
            };
            put_cpu(out, row, only, before, access, number);
        }
        Row::Back { count } => {
            put_returned(out, row, clock, number, stand.done, count, origin);
        }
        _ => put_refused(out, row, clock, number),
    }
}
