// The machine to and from its bytes.
ghost use Rattle.std.specs.Prelude.{◌≡◌};
ghost use Rattle.asbytes.specs.Machine.{head_of, head_in, machine_of, bench_of, counted, summed, stored, saved};
ghost use Rattle.asbytes.specs.Places.{slot_at, count_at, length_at, sum_at};
ghost use Rattle.fields.specs.Patch.{patched};
ghost use Rattle.image.specs.Encode.{encode};
ghost use Rattle.wram.specs.Olds.{no_olds};

use crate::{KEPT, LENGTH, SLOT, SUM};
use decode::machine_at;
use fields::word::{eight, four};
use fields::{clear, put};
use image::put_fields;
use layout::{IMAGE_SIZE, OLD_COUNT};
use ranges::entry::entry_ok;
use ring::Bench;
use state::Machine;
use wram::no_olds;

// The image that the first bytes are; none, where there are too few.
pub fn head(s: &[u8]) -> &[u8]
    ensures { result.now ≡ head_in s.now }
{
    if IMAGE_SIZE <= s.len() {
        &s[..IMAGE_SIZE]
    } else {
        &[]
    }
}

// It, or zeros where there are too few bytes, straight over the first bytes of `part`.
pub fn put_head(part: &mut [u8], s: &[u8])
    ensures { part.new ≡ patched part.old 0 (head_of s.now) }
{
    if IMAGE_SIZE <= s.len() {
        put(part, 0, &s[..IMAGE_SIZE]);
    } else {
        clear(part, IMAGE_SIZE);
    }
}

// The same by value.
pub fn head_bytes(s: &[u8]) -> [u8; IMAGE_SIZE]
    ensures { result ≡ head_of s.now }
{
    let mut e = [0; IMAGE_SIZE];
    put_head(&mut e, s);
    e
}

// Bytes that are no image, or carry old bytes, give a machine that every call refuses by 4.
fn machine_of(e: &[u8; IMAGE_SIZE]) -> Machine
    ensures { result ≡ machine_of e.now }
{
    let ok = entry_ok(e);
    let mut m = machine_at(e);
    if ok & (e[OLD_COUNT] == 0) {
        return m;
    }
    m.board.bitcycles = 0;
    m
}

pub fn slot_at(s: &[u8]) -> usize
    ensures { result ≡ slot_at s.now }
{
    eight(s, SLOT) as usize
}

pub fn kept_at(s: &[u8]) -> usize
    ensures { result ≡ count_at s.now }
{
    eight(s, KEPT) as usize
}

pub fn length_at(s: &[u8]) -> usize
    ensures { result ≡ length_at s.now }
{
    eight(s, LENGTH) as usize
}

pub fn sum_at(s: &[u8]) -> u32
    ensures { result ≡ sum_at s.now }
{
    four(s, SUM)
}

pub fn bench_of(s: &[u8]) -> Bench
    ensures { result ≡ bench_of s.now }
{
    Bench {
        machine: machine_of(&head_bytes(s)),
        slot: slot_at(s),
        kept: kept_at(s),
        length: length_at(s),
        sum: sum_at(s),
    }
}

// Next slot, kept and record length.
pub fn put_counts(s: &mut [u8], slot: usize, kept: usize, length: usize)
    ensures { s.new ≡ counted s.old slot kept «length» }
{
    put(s, SLOT, &slot.to_le_bytes());
    put(s, KEPT, &kept.to_le_bytes());
    put(s, LENGTH, &length.to_le_bytes());
}

pub fn put_sum(s: &mut [u8], sum: u32)
    ensures { s.new ≡ summed s.old sum }
{
    put(s, SUM, &sum.to_le_bytes());
}

fn put_machine(s: &mut [u8], m: Machine)
    ensures { s.new ≡ patched s.old 0 (encode m no_olds) }
{
    put_fields(s, m, no_olds());
}

pub fn store(s: &mut [u8], b: Bench)
    ensures { s.new ≡ stored b s.old }
{
    put_machine(s, b.machine);
    put_counts(s, b.slot, b.kept, b.length);
    put_sum(s, b.sum);
}

// An accepted call leaves its machine, a refused one every byte as it was.
pub fn save(s: &mut [u8], number: u8, b: Bench)
    ensures { s.new ≡ saved number b s.old }
{
    if number == 0 {
        store(s, b);
    }
}
