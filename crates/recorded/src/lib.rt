// The calls of a recording of the Rust, made on the port: each by its code, with its answer as the numbers of a step.
#![tactic(auto)]

pub mod sums; // messages and sums
pub mod rows; // the steps of the recording, and the calls that they name
pub mod answers; // answers as the numbers of a step
pub mod memory; // the memory that a block is lent
pub mod looks; // the calls that change no lent memory
pub mod calls; // the calls
