// What each channel moved: an operation's share of the figures, the totals of a run, and which operations of a script survive.
#![tactic(auto)]

pub mod alive;
pub mod count;
pub mod file;
pub mod run;
pub mod share;
