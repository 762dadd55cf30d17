// The record's slots go round; kept counts the operations that can be taken back.
ghost use Rattle.std.specs.Prelude.{◌≡◌, min, ◌+◌, ◌-◌};
ghost use Rattle.ring.specs.Slots.{after, before, noting, noted};

use crate::Bench;
use entry::write_entry;
use layout::capacity;
use state::Machine;
use wram::Olds;

pub fn slot_after(cap: usize, slot: usize) -> usize
    ensures { result ≡ after cap slot }
{
    if slot < cap && slot + 1 < cap {
        slot + 1
    } else {
        0
    }
}

pub fn slot_before(cap: usize, slot: usize) -> usize
    ensures { result ≡ before cap slot }
{
    if slot == 0 {
        cap.saturating_sub(1)
    } else {
        slot - 1
    }
}

pub fn more_kept(cap: usize, kept: usize) -> usize
    ensures { result ≡ min (kept + 1) cap }
{
    kept.saturating_add(1).min(cap)
}

pub fn less_kept(kept: usize) -> usize
    ensures { result ≡ kept - 1 }
{
    kept.saturating_sub(1)
}

// An accepted operation writes one entry at the next slot: the machine as it was, and the bytes overwritten. `sum` is work RAM's after it.
#[tactic(auto, unfolding(crate::specs::Slots::noted))]
pub fn note(b: Bench, entries: &mut [u8], next: Machine, olds: Olds, sum: u32) -> Bench
    ensures { noting result entries.new ≡ noted b entries.old next olds sum }
{
    write_entry(entries, b.slot, b.machine, olds);
    let cap = capacity(b.length);
    Bench {
        machine: next,
        slot: slot_after(cap, b.slot),
        kept: more_kept(cap, b.kept),
        sum,
        ..b
    }
}
