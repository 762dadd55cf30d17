// Script rows run on a bench: what document 01's trace prints of each.
#![tactic(auto)]

pub mod repeat;
pub mod rig;
pub mod row;
