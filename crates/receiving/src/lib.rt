// The receive side's rules over lists of segments (specs/), and the history of every sequence of events (proofs/). No code.
#![tactic(auto)]
