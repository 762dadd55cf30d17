// A listed call (docs/CALLS.md): bytes that say the machine, what is lent to the call and its numbers. It is read, laid out, made on the
// bench, and answered by a line. For the programs `calls` and `refusals`.
#![tactic(auto)]

pub mod answer;
mod changes;
mod form;
pub mod lay;
mod made;
pub mod next;
