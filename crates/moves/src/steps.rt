// A script listed step by step: a call, which row it came from, its lines.
ghost use Rattle.std.specs.Prelude.{◌≡◌};
ghost use Rattle.touch.specs.Reach.{spot_number};
ghost use Rattle.moves.specs.Steps.{running, keeping, listed, stepped, steps};

use crate::lines::put_step;
use crate::origin::{note, origin_at, origin_of};
use append::Sheet;
use common::refusal::Refusal;
use script::rig::Rig;
use walk::stand::Stand;
use walk::step::next_call;

// What the calls go on, where the script stands, the refusal of the last call, if it was refused, and the text.
#[derive(Drop)]
pub struct Run<'a> {
    pub rig: Rig<'a>,
    pub stand: Stand,
    pub refusal: Option<Refusal>,
    pub out: Sheet<'a>,
}

// The next call, of the row of that number. A back step leaves the slot of the operation that it took back as the next one.
fn list_call(w: &mut Run<'_>, origins: &mut [u32], script: &[u8], only: Option<u32>, row: usize)
    ensures same { w.new ≡ keeping w.old w.new }
    ensures value { running w.new origins.new ≡ listed w.old.rig.rom.now script.now (spot_number only) row (running w.old origins.old) }
{
    let b = w.rig.bench;
    let stand = w.stand;
    let s = next_call(&mut w.rig, script, stand);
    let here = origin_of(row, stand.done);
    note(
        origins,
        b.slot,
        here,
        s.answer.refusal.is_none() & !s.answer.back,
    );
    let after = w.rig.bench;
    let origin = origin_at(origins, after.slot);
    let clock = after.machine.board.clock;
    put_step(
        &mut w.out, row as u64, only, b.machine, s.says, s.answer, s.stand, clock, origin,
    );
    w.stand = s.next;
    w.refusal = s.answer.refusal;
}

// One step more, unless there is none, a call was refused, or its lines, of 2,048 bytes at most, might have no room.
fn step(w: &mut Run<'_>, origins: &mut [u32], script: &[u8], only: Option<u32>)
    ensures same { w.new ≡ keeping w.old w.new }
    ensures value { running w.new origins.new ≡ stepped w.old.rig.rom.now script.now (spot_number only) (running w.old origins.old) }
{
    let at = w.stand.next;
    if script.len() / 8 <= at {
        return;
    }
    if w.refusal.is_some() {
        return;
    }
    if !w.out.has_room(2048) {
        return;
    }
    list_call(w, origins, script, only, at + 1);
}

// So many steps. One that cannot go on changes nothing.
pub fn run_steps(w: &mut Run<'_>, origins: &mut [u32], script: &[u8], only: Option<u32>, count: u32)
    ensures same { w.new ≡ keeping w.old w.new }
    ensures value { running w.new origins.new ≡ steps w.old.rig.rom.now script.now (spot_number only) count (running w.old origins.old) }
{
    for i in 0..count {
        step(w, origins, script, only);
    }
}
