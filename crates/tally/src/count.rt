// The totals of a run: 29 figures, in the order that they are printed in. Places that the slice does not have count for nothing.
ghost use Rattle.std.specs.Prelude.{◌≡◌};
ghost use Rattle.common.specs.Refusal.{result_number};
ghost use Rattle.tally.specs.Share.{wrapped, passes, counted, count_call};

use crate::share::Share;
use common::refusal::Refusal;
use totals::limit::passes_at;

// The total would pass 2^64 - 1.
fn over(totals: &[u64], at: usize, by: u64) -> bool
    ensures { result ≡ passes at by totals.now }
{
    passes_at(totals.get(at).copied().unwrap_or(0), by)
}

// A total that would not pass 2^64 - 1 goes up.
fn raise(totals: &mut [u64], at: usize, by: u64)
    ensures { totals.new ≡ wrapped at by totals.old }
{
    if at < totals.len() {
        totals[at] = by.wrapping_add(totals[at]);
    }
}

// One operation more. 13 where a total would pass 2^64 - 1, and then none changes.
pub fn count(totals: &mut [u64], s: Share) -> Result<(), Refusal>
    ensures { counted (result_number result) totals.new ≡ count_call totals.old s }
{
    let channel = (s.channel % 8) as usize;
    let state = (s.state % 4) as usize;
    let general = over(totals, channel, s.general);
    let units = over(totals, channel + 8, s.units);
    let table = over(totals, channel + 16, s.table);
    let held = over(totals, state + 24, s.held);
    let all = over(totals, 28, s.held);
    if general | (units | (table | (held | all))) {
        return Err(Refusal::Total);
    }
    raise(totals, channel, s.general);
    raise(totals, channel + 8, s.units);
    raise(totals, channel + 16, s.table);
    raise(totals, state + 24, s.held);
    raise(totals, 28, s.held);
    Ok(())
}
