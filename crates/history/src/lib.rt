// The history of every sequence of calls: demand 3, over what the contracts of the public calls say (specs/, proofs/). It has no code.
#![tactic(auto)]
