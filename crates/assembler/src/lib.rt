// A bench file put together from its text (docs/BENCH.md).
#![tactic(auto)]

pub mod assemble;
pub mod bind;
pub mod desk;
