// A cycle in which the DMA unit waits or has nothing to do.
ghost use Rattle.std.specs.Prelude.{◌≡◌, []};
ghost use Rattle.asbytes.specs.Answer.{answered};
ghost use Rattle.asbytes.specs.Crossed.{crossed};
ghost use Rattle.asbytes.specs.Machine.{head_of};
ghost use Rattle.bus.specs.Access.{no_log};
ghost use Rattle.entry.specs.Slot.{write_slot};
ghost use Rattle.layout.specs.Layout.{entry_size};
ghost use Rattle.inplace.specs.Rest.{ticking, counting, rested};

use asbytes::bytes::{kept_at, length_at, put_counts, put_head, slot_at};
use asbytes::{ACCESSES, ACCESSES_SIZE};
use fields::put;
use fields::word::byte;
use layout::{CLOCK, ENTRY_SIZE, NMI, WAIT, capacity};
use ring::slots::{more_kept, slot_after};
use way::{clock_at, nmi_at, wait_at};

fn tick(s: &mut [u8], nmi: bool, wait: u32, clock: u64)
    ensures { s.new ≡ ticking s.old nmi wait clock }
{
    put(s, NMI, &[nmi as u8]);
    put(s, WAIT, &wait.saturating_sub(1).to_le_bytes());
    put(s, CLOCK, &clock.wrapping_add(1).to_le_bytes());
}

pub fn count(s: &mut [u8], slot: usize, kept: usize, length: usize)
    ensures { s.new ≡ counting s.old slot kept «length» }
{
    let cap = capacity(length);
    put_counts(s, slot_after(cap, slot), more_kept(cap, kept), length);
}

// No access: zeros behind held and edge.
fn put_quiet(out: &mut [u8], held: bool, edge: bool)
    ensures { out.new ≡ answered held edge no_log out.old }
{
    put(out, 0, &[held as u8, edge as u8, 0]);
    put(out, ACCESSES, &[0; ACCESSES_SIZE]);
}

// The entry is the image as it stands, straight into its slot.
fn copy_image(entries: &mut [u8], slot: usize, s: &[u8])
    ensures { entries.new ≡ write_slot entry_size slot (head_of s.now) entries.old }
{
    if slot < capacity(entries.len()) {
        put_head(&mut entries[slot * ENTRY_SIZE..], s);
    }
}

pub fn rest(machine: &mut [u8], entries: &mut [u8], out: &mut [u8])
    ensures { crossed 0 machine.new [] [] entries.new out.new ≡ rested machine.old [] [] entries.old out.old }
{
    let slot = slot_at(machine);
    let kept = kept_at(machine);
    let length = length_at(machine);
    let wait = wait_at(machine);
    let clock = clock_at(machine);
    let nmi = nmi_at(machine);
    let was = byte(machine, NMI);
    copy_image(entries, slot, machine);
    tick(machine, nmi, wait, clock);
    count(machine, slot, kept, length);
    put_quiet(out, 0 < wait, nmi & !(was == 1));
}
