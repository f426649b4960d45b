// Pieces packed into datagrams, end to end in lent bytes, and their lengths in a lent list: how far a packing has come, the front of a flush, its
// acks and probes, and flush_ack.
#![tactic(auto)]

pub mod packer; // how far it has come
pub mod puts; // bytes put into lent bytes
pub mod acks; // the acks
pub mod probes; // the ask and the tell
pub mod front; // all before the segments of a flush
pub mod flush_ack; // flush_ack in lent memory
