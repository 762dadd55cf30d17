// A script run call by call, with no text: what a call is, what it answers and where the script then stands.
#![tactic(auto)]

pub mod call;
pub mod stand;
pub mod step;
