// The starred worked values of 01, one table under one statement (proofs/Table). No code.
#![tactic(auto)]
