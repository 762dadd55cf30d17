// Who makes an access, which byte of work RAM it reaches, and what it does to WMADD: what a listing says beside the access itself.
#![tactic(auto)]

pub mod reach;
pub mod who;
