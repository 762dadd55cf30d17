// The bus (bus/src/bus.rs): where an address leads, what an access costs, and every access with the byte it overwrote.
#![tactic(auto)]

pub mod access;
pub mod bus;
pub mod route;
pub mod speed;
pub mod view;
