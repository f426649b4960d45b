// Demand 3 over the functions that a host links, which keep the block as thirty-five words (specs/, proofs/). It has no code.
#![tactic(auto)]
