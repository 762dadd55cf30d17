// One master cycle of the machine, in the order of RSnesCore::update (src/rsnes.rs).
#![tactic(auto)]

pub mod cycle;
pub mod event;
pub mod power_on;
