// A row of several calls: cycles, or back steps. It stops at the first refusal; the calls before it stay done.
ghost use Rattle.std.specs.Prelude.{◌≡◌};
ghost use Rattle.script.specs.Rig.{desk_of, holding};
ghost use Rattle.script.specs.Run.{ran, first_of, first_flag, cycle_step, cycles_run, back_step, backs_run};

use crate::rig::Rig;
use bench::back::back;
use bench::operate::cycle;
use common::refusal::Refusal;

// What a row has come to: the refusal that ended it, if one did, and its two numbers A and B.
#[derive(Clone, Copy)]
pub struct Ran {
    pub refusal: Option<Refusal>,
    pub a: u32,
    pub b: u32,
}

// Event and flags hold for the first cycle of a row.
pub fn first_of(i: u16, x: u8) -> u8
    ensures { result ≡ first_of i x }
{
    if i == 0 { x } else { 0 }
}

pub fn first_flag(i: u16, x: bool) -> bool
    ensures { result ≡ first_flag i x }
{
    (i == 0) & x
}

// One cycle of a row, unless one was refused before it.
fn cycle_step(rig: &mut Rig<'_>, s: Ran, event: u8, line: bool, timer: bool) -> Ran
    ensures same { rig.new ≡ holding rig.old (desk_of rig.new) }
    ensures value { ran result rig.new ≡ cycle_step rig.old.rom.now event line timer (ran s rig.old) }
{
    if s.refusal.is_some() {
        return s;
    }
    match cycle(
        rig.bench,
        rig.low,
        rig.high,
        rig.entries,
        rig.rom,
        event,
        line,
        timer,
    ) {
        Ok(r) => {
            rig.bench = r.bench;
            Ran {
                refusal: None,
                a: s.a.wrapping_add(1),
                b: s.b.wrapping_add(r.held as u32),
            }
        }
        Err(refusal) => Ran {
            refusal: Some(refusal),
            ..s
        },
    }
}

pub fn run_cycles(rig: &mut Rig<'_>, count: u16, event: u8, line: bool, timer: bool) -> Ran
    ensures same { rig.new ≡ holding rig.old (desk_of rig.new) }
    ensures value { ran result rig.new ≡ cycles_run rig.old.rom.now event line timer count (desk_of rig.old) }
{
    let mut s = Ran {
        refusal: None,
        a: 0,
        b: 0,
    };
    for i in 0..count {
        s = cycle_step(
            rig,
            s,
            first_of(i, event),
            first_flag(i, line),
            first_flag(i, timer),
        );
    }
    s
}

// One back step of a row, unless one was refused before it.
fn back_step(rig: &mut Rig<'_>, s: Ran) -> Ran
    ensures same { rig.new ≡ holding rig.old (desk_of rig.new) }
    ensures value { ran result rig.new ≡ back_step (ran s rig.old) }
{
    if s.refusal.is_some() {
        return s;
    }
    match back(rig.bench, rig.low, rig.high, rig.entries) {
        Ok(bench) => {
            rig.bench = bench;
            Ran {
                refusal: None,
                a: s.a.wrapping_add(1),
                b: s.b,
            }
        }
        Err(refusal) => Ran {
            refusal: Some(refusal),
            ..s
        },
    }
}

// A loop of its own, as `run_cycles` has: one loop for both would ask of each call, in its contract, all that it leaves of the rig.
pub fn run_backs(rig: &mut Rig<'_>, count: u16) -> Ran
    ensures same { rig.new ≡ holding rig.old (desk_of rig.new) }
    ensures value { ran result rig.new ≡ backs_run count (desk_of rig.old) }
{
    let mut s = Ran {
        refusal: None,
        a: 0,
        b: 0,
    };
    for i in 0..count {
        s = back_step(rig, s);
    }
    s
}
