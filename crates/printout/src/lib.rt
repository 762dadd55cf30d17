// The rows of a bench file one by one, and what is shown of them: nothing for a page, document 01's lines for a trace, row and sum for
// the sums.
#![tactic(auto)]

pub mod output;
pub mod row;
pub mod rows;
