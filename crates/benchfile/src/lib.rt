// A bench file: settings, RAM fill, ROM and script in one lent slice (document 01, "Bench file").
#![tactic(auto)]

pub mod check;
pub mod contents;
pub mod row;
pub mod section;
