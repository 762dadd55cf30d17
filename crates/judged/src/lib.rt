// What the contracts of the public calls settle: any two outcomes that a contract allows coincide, and document 01's "To be rejected"
// cores break it. Theorems only; no function lives here.
#![tactic(auto)]
