// The public calls of document 01: fresh, the six operations, back, page look. Each takes every input; what is bad is refused by number.
#![tactic(auto)]

pub mod back;
pub mod fresh;
pub mod host;
pub mod operate;
pub mod page;
