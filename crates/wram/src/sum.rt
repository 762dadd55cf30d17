// The sum of all bytes of work RAM, modulo 2^32: added up once, then kept by difference.
ghost use Rattle.std.specs.Prelude.{◌≡◌, ◌+◌, ◌%◌, ◌^◌, ◌≤◌};
ghost use Rattle.wram.specs.Banks.{banks, poked};
ghost use Rattle.wram.specs.Olds.{put_back};
ghost use Rattle.wram.specs.Change.{same_place, first_there, inside, change_of};
ghost use Rattle.wram.specs.Sum.{total, ram_sum, follows};

use crate::{Old, Olds, Place, Ram, peek, place_of};

#[tactic(auto, using(crate::proofs::SumLaws::added_none, crate::proofs::SumLaws::added_next))]
fn bank_sum(bank: &[u8]) -> u32
    ensures { result ≡ total bank.now % 2 ^ 32 }
{
    let mut sum: u32 = 0;
    for byte in bank {
        sum = sum.wrapping_add(*byte as u32);
    }
    sum
}

#[tactic(auto, unfolding(crate::specs::Sum::ram_sum))]
pub fn ram_sum(low: &[u8], high: &[u8]) -> u32
    ensures { result ≡ ram_sum (banks low.now high.now) }
{
    bank_sum(low).wrapping_add(bank_sum(high))
}

fn same_place(a: Old, b: Old) -> bool
    ensures { result ≡ same_place a b }
{
    (a.addr, a.high) == (b.addr, b.high)
}

// Whether none of the first n old bytes is of the same place.
fn first_there(olds: Olds, n: usize, old: Old) -> bool
    requires { n ≤ 4 }
    ensures { result ≡ first_there n olds old }
{
    for other in &olds.items[..n] {
        if same_place(*other, old) {
            return false;
        }
    }
    true
}

fn inside(low: &[u8], high: &[u8], place: Option<Place>) -> bool
    ensures { result ≡ inside (banks low.now high.now) place }
{
    match place {
        None => false,
        Some(Place::Bank7E(at)) => (at as usize) < low.len(),
        Some(Place::Bank7F(at)) => (at as usize) < high.len(),
    }
}

// The bytes that stand at the places written, and those that stood there before the operation, each place once.
#[derive(Clone, Copy)]
struct Change {
    stands: u32,
    stood: u32,
}

// An old byte counts if it is the first of its place: a later one was never there before the operation.
fn exchanged(low: &[u8], high: &[u8], olds: Olds) -> Change
    ensures { result ≡ change_of olds (banks low.now high.now) }
{
    let mut stands: u32 = 0;
    let mut stood: u32 = 0;
    for (i, old) in olds.held().iter().enumerate() {
        let place = Some(place_of(*old));
        if first_there(olds, i, *old) & inside(low, high, place) {
            stands += peek(low, high, place) as u32;
            stood += old.byte as u32;
        }
    }
    Change { stands, stood }
}

// So much more and so much less, modulo 2^32.
fn shifted(sum: u32, more: u32, less: u32) -> u32
    ensures { (result + less) % 2 ^ 32 ≡ (sum + more) % 2 ^ 32 }
{
    sum.wrapping_add(more).wrapping_sub(less)
}

// The sum after an operation that overwrote these bytes. Banks that are only looked at are enough; a Ram lends its own.
pub fn sum_after(sum: u32, low: &[u8], high: &[u8], olds: Olds) -> u32
    ensures { result ≡ follows sum (put_back olds (banks low.now high.now)) (banks low.now high.now) }
{
    let c = exchanged(low, high, olds);
    shifted(sum, c.stands, c.stood)
}

// The sum once these bytes go back.
pub fn sum_before(sum: u32, low: &[u8], high: &[u8], olds: Olds) -> u32
    ensures { result ≡ follows sum (banks low.now high.now) (put_back olds (banks low.now high.now)) }
{
    let c = exchanged(low, high, olds);
    shifted(sum, c.stood, c.stands)
}

// The sum once a byte is put at a place.
pub fn sum_with(sum: u32, low: &[u8], high: &[u8], place: Option<Place>, value: u8) -> u32
    ensures { result ≡ follows sum (banks low.now high.now) (poked (banks low.now high.now) place value) }
{
    if inside(low, high, place) {
        return shifted(sum, value as u32, peek(low, high, place) as u32);
    }
    sum
}

impl<'a> Ram<'a> {
    ghost use Rattle.wram.specs.Lent.{seen};

    pub fn sum_after(&self, sum: u32, olds: Olds) -> u32
        ensures { result ≡ follows sum (put_back olds (seen self.now)) (seen self.now) }
    {
        sum_after(sum, self.low, self.high, olds)
    }

    pub fn sum_before(&self, sum: u32, olds: Olds) -> u32
        ensures { result ≡ follows sum (seen self.now) (put_back olds (seen self.now)) }
    {
        sum_before(sum, self.low, self.high, olds)
    }

    pub fn sum_with(&self, sum: u32, place: Option<Place>, value: u8) -> u32
        ensures { result ≡ follows sum (seen self.now) (poked (seen self.now) place value) }
    {
        sum_with(sum, self.low, self.high, place, value)
    }
}
