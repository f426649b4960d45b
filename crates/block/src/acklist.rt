// How much of the ack memory is in use: the pairs of the ack list, and the bytes that wait.
ghost use Rattle.std.specs.Prelude.{◌≡◌};
ghost use Rattle.block.specs.Fresh.{fresh_ack_list};
ghost use Rattle.block.specs.WellFormed.{acklist_fits, ack_numbers, ack_lent};

use crate::Kcp;
use crate::sizes::ack_sizes;

#[derive(Clone, Copy, Debug, PartialEq, Eq)]
pub struct AckList {
    pub acks: u32,
    pub waiting: u32,
}

impl AckList {
    // The ack memory of a fresh block: nothing is in use.
    pub fn new() -> AckList
        ensures { result ≡ fresh_ack_list }
    {
        AckList {
            acks: 0,
            waiting: 0,
        }
    }

    // Whether there are at most 4,096 acks, and at most 1,500 bytes wait.
    #[tactic(auto, unfolding(crate::specs::WellFormed::acklist_fits))]
    pub fn fits(self) -> bool
        ensures { result ≡ acklist_fits self }
    {
        self.acks as usize <= Kcp::ACKS_MOST && self.waiting as usize <= Kcp::WAITING
    }

    // Whether the ack list is at most as long as the pairs lent.
    pub fn ack_numbers(self, pairs: usize) -> bool
        ensures { result ≡ ack_numbers pairs self }
    {
        self.acks as usize <= pairs
    }

    // Whether an ack memory is within the limits and holds the acks that are counted.
    #[tactic(auto, unfolding(crate::specs::WellFormed::ack_lent))]
    pub fn lent_fits(self, acks: &[u32], waiting: &[u8]) -> bool
        ensures { result ≡ ack_lent self acks.now waiting.now }
    {
        ack_sizes(acks.len(), waiting.len()) && self.ack_numbers(acks.len() / Kcp::ACK_PAIR)
    }
}
