// The machine and a cycle's answer as bytes that a player lends (docs/PLAYER.md).
#![tactic(auto)]

pub mod answer;
pub mod bytes;

use layout::IMAGE_SIZE;

// The machine's bytes: its image without old bytes, and the numbers beside it.
pub const SLOT: usize = IMAGE_SIZE;

pub const KEPT: usize = SLOT + 8;

pub const LENGTH: usize = KEPT + 8;

pub const SUM: usize = LENGTH + 8;

pub const MACHINE_SIZE: usize = SUM + 4;

// The answer's: held, edge and how many accesses, then eleven of (write, bank, address, byte).
pub const ACCESSES: usize = 3;

pub const ACCESS_SIZE: usize = 5;

pub const ACCESSES_SIZE: usize = 55;

pub const ANSWER_SIZE: usize = ACCESSES + ACCESSES_SIZE;
