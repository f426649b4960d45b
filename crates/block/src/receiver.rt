// The numbers of the receiving side: the next number, the window and the largest yet set, and the ring of what is queued and held.
ghost use Rattle.std.specs.Prelude.{◌≡◌};
ghost use Rattle.block.specs.Fresh.{fresh_receiver};
ghost use Rattle.block.specs.Parts.{with_rcv_ring};
ghost use Rattle.block.specs.WellFormed.{receiver_fits, receive_numbers};

use crate::Kcp;
use rcv_ring::RcvRing;

#[derive(Clone, Copy, Debug, PartialEq, Eq)]
pub struct Receiver {
    pub rcv_nxt: u32,
    pub rcv_wnd: u16,
    pub largest: u16,
    pub ring: RcvRing,
}

impl Receiver {
    // The receiving side of a fresh block.
    pub fn new() -> Receiver
        ensures { result ≡ fresh_receiver }
    {
        Receiver {
            rcv_nxt: 0,
            rcv_wnd: Kcp::WND_RCV,
            largest: Kcp::WND_RCV,
            ring: RcvRing {
                start: 0,
                queued: 0,
                reach: 0,
            },
        }
    }

    // The receiving side with this ring, and this next number.
    pub fn with_ring(self, rcv_nxt: u32, ring: RcvRing) -> Receiver
        ensures { result ≡ with_rcv_ring self rcv_nxt ring }
    {
        Receiver {
            rcv_nxt,
            ring,
            ..self
        }
    }

    // Whether the window lies from 128 to the largest yet set, that is at most 512, and queue and reach are at most that.
    #[tactic(auto, unfolding(crate::specs::WellFormed::receiver_fits))]
    pub fn fits(self) -> bool
        ensures { result ≡ receiver_fits self }
    {
        let ring = self.ring;
        let largest = self.largest as usize;
        Kcp::WND_RCV <= self.rcv_wnd
            && self.rcv_wnd <= self.largest
            && ring.queued as usize <= largest
            && ring.reach as usize <= largest
            && largest <= Kcp::WND_MOST
            && (ring.start as usize) < Kcp::SLOTS_MOST
    }

    // Whether the ring starts within the slots lent, and twice the largest window is at most those.
    pub fn receive_numbers(self, slots: usize) -> bool
        ensures { result ≡ receive_numbers slots self }
    {
        (self.ring.start as usize) < slots && 2 * self.largest as usize <= slots
    }
}
