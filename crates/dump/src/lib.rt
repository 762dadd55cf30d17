// A page of work RAM as a hex dump, and the place by which a person names it.
#![tactic(auto)]

pub mod page;
pub mod place;
