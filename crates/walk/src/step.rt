// A script one call at a time.
ghost use Rattle.std.specs.Prelude.{◌≡◌};
ghost use Rattle.script.specs.Rig.{desk_of, holding};
ghost use Rattle.walk.specs.Step.{stepping, step_of};

use crate::call::{Answer, call};
use crate::stand::{Stand, count_call, go_on};
use benchfile::row::{Row, row_at};
use common::refusal::number_of;
use script::rig::Rig;

// A call made: its row, what it answered, where the script stands with it counted, and where it goes on.
#[derive(Clone, Copy)]
pub struct Step {
    pub says: Row,
    pub answer: Answer,
    pub stand: Stand,
    pub next: Stand,
}

// The next call. Behind the last row there is none, and it is refused by 11.
#[tactic(auto, unfolding(crate::specs::Step::step_of))]
pub fn next_call(rig: &mut Rig<'_>, script: &[u8], stand: Stand) -> Step
    ensures same { rig.new ≡ holding rig.old (desk_of rig.new) }
    ensures value { stepping result rig.new ≡ step_of rig.old.rom.now script.now stand (desk_of rig.old) }
{
    let says = row_at(script, stand.next);
    let answer = call(rig, stand.done, says);
    let with = count_call(stand, number_of(answer.refusal), answer.held);
    Step {
        says,
        answer,
        stand: with,
        next: go_on(with, answer.count),
    }
}
