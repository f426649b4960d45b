// The rules of the way out (specs/), and what they do with numbers: flush, flush_ack, update and check as functions of a part of the block or of
// one segment's record. No lent memory.
#![tactic(auto)]

pub mod windows; // the window told to the peer, that of a flush, and that of congestion after it
pub mod probing; // the window probe
pub mod due; // whether a segment goes out, and its record afterwards
pub mod headers; // the headers of a flush
pub mod clock; // the clock of update, and the wait of check
