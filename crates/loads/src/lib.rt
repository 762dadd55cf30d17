// A whole transfer in one sentence: which cycles are held, what is moved, what is left, proved. Nothing runs here.
#![tactic(auto)]
