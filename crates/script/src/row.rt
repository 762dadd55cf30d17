// One script row, by its kind.
ghost use Rattle.std.specs.Prelude.{◌≡◌};
ghost use Rattle.bench.specs.Calls.{plain_out};
ghost use Rattle.script.specs.Rig.{desk_of, holding};
ghost use Rattle.script.specs.Run.{ran};
ghost use Rattle.script.specs.Row.{refused, plain_ran, row_run};

use crate::repeat::{Ran, run_backs, run_cycles};
use crate::rig::Rig;
use bench::operate::{pad, plug, port_answer, read, write};
use benchfile::row::Row;
use common::refusal::Refusal;
use ring::Bench;

// A row whose call answers nothing but the bench.
fn run_plain(rig: &mut Rig<'_>, made: Result<Bench, Refusal>) -> Ran
    ensures same { rig.new ≡ holding rig.old (desk_of rig.new) }
    ensures value { ran result rig.new ≡ plain_ran (plain_out rig.old.bench made rig.old.low.now rig.old.high.now rig.old.entries.now) }
{
    match made {
        Ok(bench) => {
            rig.bench = bench;
            Ran {
                refusal: None,
                a: 0,
                b: 0,
            }
        }
        Err(refusal) => refused(refusal),
    }
}

fn refused(refusal: Refusal) -> Ran
    ensures { result ≡ refused refusal }
{
    Ran {
        refusal: Some(refusal),
        a: 0,
        b: 0,
    }
}

// A row that breaks its form is refused by 11; in a file that passed its check there is none.
#[tactic(auto, unfolding(crate::specs::Row::row_run))]
pub fn run_row(rig: &mut Rig<'_>, row: Row) -> Ran
    ensures same { rig.new ≡ holding rig.old (desk_of rig.new) }
    ensures value { ran result rig.new ≡ row_run rig.old.rom.now row (desk_of rig.old) }
{
    match row {
        Row::Cycles {
            count,
            event,
            due,
            timer,
        } => run_cycles(rig, count, event, due, timer),
        Row::Read { bank, addr } => {
            match read(
                rig.bench,
                rig.low,
                rig.high,
                rig.entries,
                rig.rom,
                bank,
                addr,
            ) {
                Ok(r) => {
                    rig.bench = r.bench;
                    Ran {
                        refusal: None,
                        a: r.byte as u32,
                        b: r.cost as u32,
                    }
                }
                Err(refusal) => refused(refusal),
            }
        }
        Row::Write { bank, addr, byte } => {
            match write(
                rig.bench,
                rig.low,
                rig.high,
                rig.entries,
                rig.rom,
                bank,
                addr,
                byte,
            ) {
                Ok(r) => {
                    rig.bench = r.bench;
                    Ran {
                        refusal: None,
                        a: 0,
                        b: r.cost as u32,
                    }
                }
                Err(refusal) => refused(refusal),
            }
        }
        Row::Pad { port, word } => {
            let made = pad(
                rig.bench,
                rig.low,
                rig.high,
                rig.entries,
                rig.rom,
                port,
                word,
            );
            run_plain(rig, made)
        }
        Row::Plug { port, on } => {
            let made = plug(rig.bench, rig.low, rig.high, rig.entries, rig.rom, port, on);
            run_plain(rig, made)
        }
        Row::Answer { addr, byte } => {
            let made = port_answer(
                rig.bench,
                rig.low,
                rig.high,
                rig.entries,
                rig.rom,
                addr,
                byte,
            );
            run_plain(rig, made)
        }
        Row::Back { count } => run_backs(rig, count),
        Row::Broken => refused(Refusal::BenchFile),
    }
}
