// A machine at power-on with an empty record.
ghost use Rattle.std.specs.Prelude.{◌≡◌};
ghost use Rattle.bench.specs.Calls.{empty_bench, no_bench, fresh_out, fresh_call};

use common::refusal::Refusal;
use machine::power_on::power_on_machine;
use ring::Bench;
use ring::refusal::fresh_allowed;
use wram::sum::ram_sum;

// Why fresh was refused, and the bench that it gives all the same.
#[derive(Clone, Copy)]
pub struct RefusedFresh {
    pub refusal: Refusal,
    pub bench: Bench,
}

fn empty_bench(length: usize, bitcycles: u16, sum: u32) -> Bench
    ensures { result ≡ empty_bench length bitcycles sum }
{
    Bench {
        machine: power_on_machine(bitcycles),
        slot: 0,
        kept: 0,
        length,
        sum,
    }
}

// What a refused fresh has.
pub fn no_bench() -> Bench
    ensures { result ≡ no_bench }
{
    empty_bench(0, 1, 0)
}

// The banks, apart as the C interface lends them, are only looked at, and added up once.
pub fn fresh(low: &[u8], high: &[u8], length: usize, bitcycles: u16) -> Result<Bench, RefusedFresh>
    ensures { fresh_out result ≡ fresh_call low.now high.now length bitcycles }
{
    match fresh_allowed(low.len(), high.len(), length, bitcycles) {
        Ok(()) => Ok(empty_bench(length, bitcycles, ram_sum(low, high))),
        Err(refusal) => Err(RefusedFresh {
            refusal,
            bench: no_bench(),
        }),
    }
}
