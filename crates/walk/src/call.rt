// One call of a script row.
ghost use Rattle.std.specs.Prelude.{◌≡◌};
ghost use Rattle.script.specs.Rig.{desk_of, holding};
ghost use Rattle.common.specs.Refusal.{number_of};
ghost use Rattle.walk.specs.Call.{plain_answer, answered, calling, call_of};

use bench::back::back;
use bench::operate::cycle;
use benchfile::row::Row;
use bus::access::{Log, no_log};
use common::refusal::Refusal;
use script::repeat::{first_flag, first_of};
use script::rig::Rig;
use script::row::run_row;

// What a call answers: the refusal, if there is one; a read's byte and an access's cost; a cycle's held, NMI edge and accesses. `back` is set for a
// back step; `count` is how many calls the row is.
#[derive(Clone, Copy)]
pub struct Answer {
    pub refusal: Option<Refusal>,
    pub byte: u32,
    pub cost: u32,
    pub held: bool,
    pub edge: bool,
    pub back: bool,
    pub count: u16,
    pub log: Log,
}

// The answer of a call that is no cycle.
fn plain(refusal: Option<Refusal>, byte: u32, cost: u32, back: bool, count: u16) -> Answer
    ensures { answered result ≡ plain_answer (number_of refusal) byte cost back count }
{
    Answer {
        refusal,
        byte,
        cost,
        held: false,
        edge: false,
        back,
        count,
        log: no_log(),
    }
}

// The call that comes after `done` others of its row; event and flags hold for the first cycle.
#[tactic(auto, unfolding(crate::specs::Call::call_of))]
pub fn call(rig: &mut Rig<'_>, done: u16, says: Row) -> Answer
    ensures same { rig.new ≡ holding rig.old (desk_of rig.new) }
    ensures value { calling result rig.new ≡ call_of rig.old.rom.now done says (desk_of rig.old) }
{
    match says {
        Row::Cycles {
            count,
            event,
            due,
            timer,
        } => {
            let e = first_of(done, event);
            let l = first_flag(done, due);
            let t = first_flag(done, timer);
            match cycle(rig.bench, rig.low, rig.high, rig.entries, rig.rom, e, l, t) {
                Ok(r) => {
                    rig.bench = r.bench;
                    Answer {
                        held: r.held,
                        edge: r.edge,
                        log: r.log,
                        ..plain(None, 0, 0, false, count)
                    }
                }
                Err(refusal) => plain(Some(refusal), 0, 0, false, count),
            }
        }
        Row::Back { count } => match back(rig.bench, rig.low, rig.high, rig.entries) {
            Ok(bench) => {
                rig.bench = bench;
                plain(None, 0, 0, true, count)
            }
            Err(refusal) => plain(Some(refusal), 0, 0, true, count),
        },
        _ => {
            let r = run_row(rig, says);
            plain(r.refusal, r.a, r.b, false, 1)
        }
    }
}
