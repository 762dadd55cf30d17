// Demand 3 as a theorem about the public calls (specs/Promise.antt, proofs/Rewinds.antt). Nothing runs here.
#![tactic(auto)]
