// One operation taken back: the newest entry restores the machine and the bytes that were overwritten. No record byte is written.
// Banks and record come apart, as the C interface lends them.
ghost use Rattle.std.specs.Prelude.{◌≡◌};
ghost use Rattle.bench.specs.Calls.{desk, plain_out, back_call};

use common::refusal::Refusal;
use entry::read_entry;
use layout::capacity;
use ring::Bench;
use ring::refusal::{back_allowed, lent};
use ring::slots::{less_kept, slot_before};
use wram::Ram;

pub fn back(b: Bench, low: &mut [u8], high: &mut [u8], entries: &mut [u8]) -> Result<Bench, Refusal>
    ensures { plain_out b result low.new high.new entries.new ≡ back_call (desk b low.old high.old entries.old) }
{
    let lent = lent(b, low.len(), high.len(), entries.len(), 0);
    let slot = slot_before(capacity(b.length), b.slot);
    let newest = read_entry(entries, slot);
    back_allowed(lent, b.kept, newest.ok)?;
    let mut ram = Ram { low, high };
    let sum = ram.sum_before(b.sum, newest.olds);
    ram.put_back(newest.olds);
    Ok(Bench {
        machine: newest.machine,
        slot,
        kept: less_kept(b.kept),
        sum,
        ..b
    })
}
