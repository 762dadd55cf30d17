// The text form of a bench file, read one character at a time (docs/BENCH.md).
#![tactic(auto)]

pub mod draft;
pub mod kinds;
pub mod letter;
pub mod line;
mod names;
pub mod number;
pub mod reader;
pub mod sign;
pub mod text;
pub mod word;
