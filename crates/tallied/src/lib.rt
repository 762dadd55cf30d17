// The figures are those of the run: what the DMA unit did, and of the survivors of its history, proved. Nothing runs here.
#![tactic(auto)]
