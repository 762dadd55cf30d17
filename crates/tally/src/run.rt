// A script counted: its calls one after the other, to the first that is refused.
ghost use Rattle.std.specs.Prelude.{◌≡◌};
ghost use Rattle.common.specs.Refusal.{result_number};
ghost use Rattle.script.specs.Rig.{desk_of, holding};
ghost use Rattle.tally.specs.Share.{counted};
ghost use Rattle.tally.specs.Run.{tallying, keeping, Told, count_in, call_tallied, step_tallied, calls_tallied, calls_in, limit_of, row_tallied, script_tallied};

use crate::alive::note;
use crate::count::count;
use crate::share::share_of;
use benchfile::row::{Row, row_at};
use bus::access::Log;
use common::refusal::{Refusal, number_of};
use script::rig::Rig;
use state::{Dma, DmaState};
use touch::who::who_of;
use walk::call::call;

// The refusal of the last call or 0, how many rows have begun, and a row behind which no row has a surviving operation.
#[derive(Clone, Copy)]
pub struct Tally {
    pub number: u8,
    pub row: usize,
    pub top: usize,
}

// A tally with what it is made over: for each row how many of its operations survive, and the totals. `refusal` is what its number stands for,
// once a call was made; the number that a count begins with may be any.
#[derive(Drop)]
pub struct Book<'a> {
    pub tally: Tally,
    pub refusal: Option<Refusal>,
    pub alive: &'a mut [u16],
    pub totals: &'a mut [u64],
}

// Only a cycle counts: nothing else is held, or has the DMA unit do anything. `dma` is the unit before it.
fn count_in(
    totals: &mut [u64],
    says: Row,
    dma: Dma,
    held: bool,
    after: DmaState,
    log: Log,
) -> Result<(), Refusal>
    ensures { counted (result_number result) totals.new ≡ count_in says dma held after log totals.old }
{
    match says {
        Row::Cycles {
            count: calls,
            event,
            due,
            timer,
        } => count(totals, share_of(who_of(dma), held, after, log)),
        _ => Ok(()),
    }
}

// The call after `done` others of its row. A refused one counts for nothing.
fn tally_call(rig: &mut Rig<'_>, t: &mut Book<'_>, row: usize, says: Row, done: u16)
    ensures rig { rig.new ≡ holding rig.old (desk_of rig.new) }
    ensures lent { t.new ≡ keeping t.old t.new }
    ensures told { Told t.new }
    ensures value { tallying t.new rig.new ≡ call_tallied rig.old.rom.now row says done (tallying t.old rig.old) }
{
    let dma = rig.bench.machine.dma;
    let answer = call(rig, done, says);
    t.refusal = answer.refusal;
    if answer.refusal.is_none() {
        let after = rig.bench.machine.dma.state;
        t.refusal = count_in(t.totals, says, dma, answer.held, after, answer.log).err();
        t.tally.top = note(t.alive, t.tally.top, row, answer.back);
    }
    t.tally.number = number_of(t.refusal);
}

// One call more, unless one was refused.
#[tactic(auto, unfolding(crate::specs::Run::step_tallied), using(std::proofs::lemmas::Bool::Decides::nat_tests))]
fn tally_step(rig: &mut Rig<'_>, t: &mut Book<'_>, row: usize, says: Row, done: u16)
    ensures rig { rig.new ≡ holding rig.old (desk_of rig.new) }
    ensures lent { t.new ≡ keeping t.old t.new }
    ensures told { Told t.old → Told t.new }
    ensures value { tallying t.new rig.new ≡ step_tallied rig.old.rom.now row says done (tallying t.old rig.old) }
{
    if t.tally.number == 0 {
        tally_call(rig, t, row, says, done);
    }
}

// So many calls of a row.
fn tally_calls(rig: &mut Rig<'_>, t: &mut Book<'_>, row: usize, says: Row, count: u16)
    ensures rig { rig.new ≡ holding rig.old (desk_of rig.new) }
    ensures lent { t.new ≡ keeping t.old t.new }
    ensures told { Told t.old → Told t.new }
    ensures value { tallying t.new rig.new ≡ calls_tallied rig.old.rom.now row says count (tallying t.old rig.old) }
{
    for i in 0..count {
        tally_step(rig, t, row, says, i);
    }
}

fn calls_in(says: Row) -> u16
    ensures { result ≡ calls_in says }
{
    match says {
        Row::Cycles {
            count,
            event,
            due,
            timer,
        } => count,
        Row::Back { count } => count,
        _ => 1,
    }
}

// How many calls a row makes: its limit where one is set, else all.
fn limit(limits: &[u16], row: usize, says: Row) -> u16
    ensures { result ≡ limit_of limits.now row says }
{
    if row < limits.len() {
        return limits[row];
    }
    calls_in(says)
}

// One row more, unless a call was refused.
#[tactic(auto, unfolding(crate::specs::Run::row_tallied), using(std::proofs::lemmas::Bool::Decides::nat_tests))]
fn tally_row(rig: &mut Rig<'_>, t: &mut Book<'_>, script: &[u8], limits: &[u16], row: usize)
    ensures rig { rig.new ≡ holding rig.old (desk_of rig.new) }
    ensures lent { t.new ≡ keeping t.old t.new }
    ensures told { Told t.old → Told t.new }
    ensures value { tallying t.new rig.new ≡ row_tallied rig.old.rom.now script.now limits.now row (tallying t.old rig.old) }
{
    if t.tally.number != 0 {
        return;
    }
    let says = row_at(script, row);
    let count = limit(limits, row, says);
    t.tally.row = row.wrapping_add(1);
    tally_calls(rig, t, row, says, count);
}

// All rows of a script.
pub fn tally_script(rig: &mut Rig<'_>, t: &mut Book<'_>, script: &[u8], limits: &[u16])
    ensures rig { rig.new ≡ holding rig.old (desk_of rig.new) }
    ensures lent { t.new ≡ keeping t.old t.new }
    ensures told { Told t.old → Told t.new }
    ensures value { tallying t.new rig.new ≡ script_tallied rig.old.rom.now script.now limits.now (tallying t.old rig.old) }
{
    for row in 0..script.len() / 8 {
        tally_row(rig, t, script, limits, row);
    }
}
