// Document 01's corners (a) to (j), proved together (specs/Corners.antt, proofs/Proved.antt). Nothing runs here.
#![tactic(auto)]
