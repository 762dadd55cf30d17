// What list writes, assemble reads back: the laws of both texts (proofs/).
#![tactic(auto)]
