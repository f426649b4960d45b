// The calls of a host that keeps its control block as thirty-five words, each with the number that the host is told.
#![tactic(auto)]

pub mod make; // the constructors
pub mod setters; // the setters that are handed no pool
