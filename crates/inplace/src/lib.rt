// Cycles made on the machine's bytes where they stand: most cycles of a run. Which way one goes, room way says.
#![tactic(auto)]

pub mod onebyte;
pub mod rest;
