// The text form of a bench file, written (docs/BENCH.md): one spelling for each file.
#![tactic(auto)]

pub mod body;
pub mod list;
pub mod row;
