// The lines of a listing of moves (docs/MOVES.md), each put behind what stands in a lent buffer.
#![tactic(auto)]

pub mod cycle;
pub mod event;
pub mod line;
