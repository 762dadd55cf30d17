// The machine with the record's counts and the sum: the slots go round, an operation is noted, and bad input is refused by number.
#![tactic(auto)]

pub mod refusal;
pub mod slots;

use state::Machine;

// The machine with what stands beside its image: the slot that the next operation takes, how many are kept, the record's length, and the
// sum of work RAM.
#[derive(Clone, Copy)]
pub struct Bench {
    pub machine: Machine,
    pub slot: usize,
    pub kept: usize,
    pub length: usize,
    pub sum: u32,
}
