// The public calls for programs in other languages: numbers and byte slices only. docs/PLAYER.md has the places of the bytes.
#![tactic(auto)]

pub mod calls;
